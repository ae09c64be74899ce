// The filters of both kinds of chains as one kind.
ghost use Rattle.std.specs.Prelude.{◌≡◌, ℕ};
ghost use Rattle.mesh_policy.specs.Attributes.{Seen};
ghost use Rattle.mesh_policy.specs.declared.case.Case.{Case};
ghost use Rattle.envoy_types.specs.Run.{RunState, Step};
ghost use Rattle.envoy_eval.specs.Filters.{run_part, hits_of_part};
ghost use Rattle.envoy_eval.specs.declared.hits.StageHits.{StageHits};

use envoy_types::{ExtAuthz, HttpFilter, JwtAuthn, NetworkFilter, Rbac};

/// What a filter is, whichever kind of chain it stands in.
pub(crate) enum Part<'a> {
    Jwt(&'a JwtAuthn),
    Rbac(&'a Rbac),
    ExtAuthz(&'a ExtAuthz),
}

/// A filter of a chain.
pub(crate) trait Filter {
    ghost run: { Case → Self → RunState → Step };

    ghost hits: { ℕ → Case → Self → Seen → StageHits };

    fn part(&self) -> Part<'_>
        ensures runs { (case : Case) (before : RunState) → run case self.now before ≡ run_part case result before }
        ensures tells { (at : ℕ) (case : Case) (seen : Seen) → hits at case self.now seen ≡ hits_of_part at case result seen };
}

impl Filter for NetworkFilter {
    ghost use Rattle.envoy_types.specs.Run.{run_network};
    ghost use Rattle.envoy_eval.specs.Filters.{hits_of_network};

    ghost run = { run_network };

    ghost hits = { hits_of_network };

    fn part(&self) -> Part<'_> {
        match self {
            NetworkFilter::Rbac(rbac) => Part::Rbac(rbac),
            NetworkFilter::ExtAuthz(authz) => Part::ExtAuthz(authz),
        }
    }
}

impl Filter for HttpFilter {
    ghost use Rattle.envoy_types.specs.Run.{run_http};
    ghost use Rattle.envoy_eval.specs.Filters.{hits_of_http};

    ghost run = { run_http };

    ghost hits = { hits_of_http };

    fn part(&self) -> Part<'_> {
        match self {
            HttpFilter::Jwt(jwt) => Part::Jwt(jwt),
            HttpFilter::Rbac(rbac) => Part::Rbac(rbac),
            HttpFilter::ExtAuthz(authz) => Part::ExtAuthz(authz),
        }
    }
}
