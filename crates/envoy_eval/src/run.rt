// The filters of a chain, one after another.
ghost use Rattle.std.specs.Prelude.{◌≡◌};
ghost use Rattle.std.specs.Option.{option_copied};
ghost use Rattle.envoy_types.specs.Run as run;
ghost use Rattle.envoy_types.specs.Run.{name_of};
ghost use Rattle.envoy_types.specs.State.{seen_of};
ghost use Rattle.envoy_eval.specs.Runs as runs;
ghost use Rattle.envoy_eval.specs.Runs.{after, begin, run_hits};
ghost use Rattle.envoy_eval.specs.Steps.{StepIs, Stands, decision_of};

use crate::filters::{Filter, Part};
use crate::hits::{first_hits, no_hits};
use crate::names::{Told, told_at, told_behind};
use crate::steps::{Decision, FilterStep, Standing, run_authz, run_jwt, run_rbac};
use envoy_types::State;
use mesh_policy::Case;

/// What a filter decides, and the name that stands behind it.
#[derive(Clone, Copy)]
struct Turn<'a> {
    ran: FilterStep,
    told: Told<'a>,
}

/// What the filters decide: the first refusal ends the run.
pub(crate) fn run_filters<F: Filter>(filters: &[F], case: &Case, start: State) -> FilterStep
    ensures step { StepIs case.now result (run.run_filters (F.run case.now) filters.now (begin case.now start)) }
    ensures hits { result.hits
        ≡ run_hits (F.run case.now) (λ at filter seen. F.hits at case.now filter seen) 0 filters.now (begin case.now start) }
{
    let mut now = Standing {
        state: start,
        audited: false,
    };
    let mut hits = no_hits();
    let mut told = Told {
        key: first_key(filters),
        name: None,
    };
    for (at, filter) in filters.iter().enumerate() {
        let turn = run_filter(
            at,
            filter,
            &filters[..at],
            &filters[at + 1..],
            case,
            start,
            now,
            told,
        );
        hits = first_hits(hits, turn.ran.hits);
        if !is_going(turn.ran.decision) {
            return FilterStep {
                decision: turn.ran.decision,
                after: turn.ran.after,
                hits,
            };
        }
        now = turn.ran.after;
        told = turn.told;
    }
    FilterStep {
        decision: Decision::GoesOn,
        after: now,
        hits,
    }
}

// The key that the first authorizer asks for. Any key would do: at the first filter no name is told.
fn first_key<F: Filter>(filters: &[F]) -> &str {
    for filter in filters {
        match filter.part() {
            Part::ExtAuthz(authz) => return authz.enabled_key.as_str(),
            Part::Jwt(_) | Part::Rbac(_) => {}
        }
    }
    ""
}

fn is_going(decision: Decision) -> bool
    ensures { result ≡ runs.is_going (decision_of decision) }
{
    match decision {
        Decision::GoesOn => true,
        Decision::Unauthenticated | Decision::Refuses => false,
    }
}

// Behind those before it, which all went on. An authorizer leaves the names, so the name that the next one asks for is looked up
// here, before a filter between them tells it.
fn run_filter<'a, F: Filter>(
    at: usize,
    filter: &'a F,
    before: &'a [F],
    behind: &'a [F],
    case: &Case,
    start: State,
    now: Standing,
    told: Told<'a>,
) -> Turn<'a>
    requires stands { Stands case.now now (after (F.run case.now) before.now (begin case.now start)) }
    requires told { option_copied told.name
        ≡ name_of told.key.now (after (F.run case.now) before.now (begin case.now start)).names }
    ensures step { StepIs case.now result.ran (F.run case.now filter.now (after (F.run case.now) before.now (begin case.now start))) }
    ensures hits { result.ran.hits ≡ F.hits at case.now filter.now (seen_of case.now now.state) }
    ensures told { option_copied result.told.name ≡ name_of result.told.key.now
        (F.run case.now filter.now (after (F.run case.now) before.now (begin case.now start))).state.names }
{
    match filter.part() {
        Part::Jwt(jwt) => Turn {
            ran: run_jwt(jwt, case, now),
            told,
        },
        Part::Rbac(rbac) => {
            let ran = run_rbac(at, rbac, case, now);
            let told = told_behind(rbac, ran.hits.custom, told);
            Turn { ran, told }
        }
        Part::ExtAuthz(authz) => {
            let told = told_at(&authz.enabled_key, before, case, start, now.state, told);
            let ran = run_authz(authz, told.name, case, now);
            let told = told_at(first_key(behind), before, case, start, now.state, told);
            Turn { ran, told }
        }
    }
}
