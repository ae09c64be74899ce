// What an external authorizer decides.
ghost use Rattle.std.specs.Prelude.{◌≡◌, find};
ghost use Rattle.std.specs.Option.{option_copied};
ghost use Rattle.std.specs.Str.{bytes_eq};
ghost use Rattle.envoy_types.specs.Authz as authz;

use envoy_types::{AuthService, ExtAuthz};
use mesh_policy::{Answer, Case};

/// Whether the authorizer is asked, by what the metadata has at the filter's key.
pub(crate) fn is_asked(filter: &ExtAuthz, name: Option<&str>) -> bool
    ensures { result ≡ authz.is_asked filter.now (option_copied name.entry) }
{
    match name {
        None => false,
        Some(name) => filter.enabled.holds(name),
    }
}

/// What it decides where it is asked.
pub(crate) fn service_passes(filter: &ExtAuthz, case: &Case) -> bool
    ensures { result ≡ authz.service_passes filter.now case.now }
{
    match answer_of(&case.answers, cluster_of(&filter.service)) {
        None => filter.fail_open,
        Some(answer) => answer.allow,
    }
}

fn answer_of<'a>(answers: &'a [Answer], cluster: &str) -> Option<&'a Answer>
    ensures { option_copied result ≡ find (λ answer. bytes_eq answer.cluster cluster.now) answers.now }
{
    answers
        .iter()
        .find(|answer| answer.cluster.as_str() == cluster)
}

fn cluster_of(service: &AuthService) -> &str
    ensures { result.now ≡ authz.cluster_of service.now }
{
    match service {
        AuthService::Http { cluster, .. } => cluster.as_str(),
        AuthService::Grpc { cluster } => cluster.as_str(),
    }
}
