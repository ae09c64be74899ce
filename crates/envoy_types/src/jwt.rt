// The filter that judges tokens, and its providers by their names.
ghost use Rattle.std.specs.Prelude.{◌≡◌, IsTrue};
ghost use Rattle.std.specs.Option.{option_copied};
ghost use Rattle.envoy_types.specs.Jwt as jwt;
ghost use Rattle.envoy_types.specs.Order.{names_rise};

use mesh_policy::JwtRule;
use mesh_text::{List, Text};
use std::marker::Model;

/// A token authentication filter (Envoy v3 API, `extensions.filters.http.jwt_authn.v3.JwtAuthentication`). Its providers
/// stand in byte order of distinct names.
#[derive(Debug, Drop, PartialEq, Eq)]
pub struct JwtAuthn {
    pub providers: List<JwtProvider>,
    /// The first that fits a request counts.
    pub rules: List<JwtCheck>,
}

impl Model for JwtAuthn {
    ghost use Rattle.std.specs.Prelude.{IsTrue};
    ghost use Rattle.envoy_types.specs.Jwt.{Authentication};
    ghost use Rattle.envoy_types.specs.Order.{names_rise};

    ghost Value = { Authentication };

    ghost view = { λ j. record { providers = j.providers; rules = j.rules } };

    ghost invariant = { λ j. IsTrue (names_rise (λ provider. provider.name) j.providers) };

    ghost inverse = { λ j. record { providers = j.providers; rules = j.rules } };
}

/// Whose tokens are taken (`extensions.filters.http.jwt_authn.v3.JwtProvider`). Its rule has a place at least, and
/// headers stand before parameters.
#[derive(Debug, Drop, PartialEq, Eq)]
pub struct JwtProvider {
    pub name: Text,
    pub rule: JwtRule,
}

impl Model for JwtProvider {
    ghost use Rattle.std.specs.Prelude.{IsTrue};
    ghost use Rattle.envoy_types.specs.Jwt.{Provider};
    ghost use Rattle.envoy_types.specs.Order.{are_places};

    ghost Value = { Provider };

    ghost view = { λ p. record { name = p.name; rule = p.rule } };

    ghost invariant = { λ p. IsTrue (are_places p.rule.places) };

    ghost inverse = { λ p. record { name = p.name; rule = p.rule } };
}

/// What requests of a path have to show (`extensions.filters.http.jwt_authn.v3.RequirementRule`).
#[derive(Debug, Drop, PartialEq, Eq)]
pub struct JwtCheck {
    /// The beginning of the paths, their queries counted.
    pub prefix: Text,
    /// Without one nothing is asked.
    pub requirement: Option<Requirement>,
}

/// What has to be shown (`extensions.filters.http.jwt_authn.v3.JwtRequirement`), of providers by their names.
#[derive(Debug, Drop, PartialEq, Eq)]
pub enum Requirement {
    /// A valid token of the provider.
    One(Text),
    /// A valid token of one of the providers, or, where `allow_missing` is set, no token of any of them.
    AnyOf {
        names: List<Text>,
        allow_missing: bool,
    },
}

/// The provider of a name among those of a filter, which stand in byte order of distinct names; None where none bears
/// it. The search halves what is left, so that it compares about as many names as the count of the providers has binary
/// digits. It takes no memory.
pub fn provider_named<'a>(providers: &'a [JwtProvider], name: &str) -> Option<&'a JwtProvider>
    requires { IsTrue (names_rise (λ provider. provider.name) providers.now) }
    ensures { option_copied result ≡ jwt.provider_named providers.now name.now }
{
    match providers.binary_search_by(|provider| provider.name.as_str().cmp(name)) {
        Ok(at) => Some(&providers[at]),
        Err(_) => None,
    }
}
