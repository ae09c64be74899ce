// What one filter decides.
ghost use Rattle.std.specs.Prelude.{◌≡◌, ◌||◌, is_some, if◌then◌else◌};
ghost use Rattle.std.specs.Option.{option_copied};
ghost use Rattle.envoy_types.specs.Access as access;
ghost use Rattle.envoy_types.specs.Run as run;
ghost use Rattle.envoy_types.specs.Run.{Names, goes_on, name_of, refuses};
ghost use Rattle.envoy_types.specs.State.{seen_of};
ghost use Rattle.envoy_eval.specs.Hits as stages;
ghost use Rattle.envoy_eval.specs.Steps.{StepIs, decision_of, standing};

use crate::access::effective;
use crate::authz::{is_asked, service_passes};
use crate::hits::{Hit, StageHits, hit_at, hits_of_action, hits_of_shadow, no_hits};
use crate::tokens::{first_position_by, may_miss, required};
use envoy_types::{ExtAuthz, JwtAuthn, Rbac, RbacAction, RbacRules, Requirement, State};
use mesh_policy::Case;

/// What stands before a filter, but for the names that shadow rules have told.
#[derive(Clone, Copy)]
pub(crate) struct Standing {
    pub(crate) state: State,
    pub(crate) audited: bool,
}

/// Whether the next filter is asked, or why none is.
#[derive(Clone, Copy)]
pub(crate) enum Decision {
    GoesOn,
    Unauthenticated,
    Refuses,
}

/// What a filter decides, what stands behind it, and what it hits.
#[derive(Clone, Copy)]
pub(crate) struct FilterStep {
    pub(crate) decision: Decision,
    pub(crate) after: Standing,
    pub(crate) hits: StageHits,
}

fn decided(passes: bool) -> Decision
    ensures { decision_of result ≡ (if passes then goes_on else refuses) }
{
    if passes {
        Decision::GoesOn
    } else {
        Decision::Refuses
    }
}

// ---- tokens

pub(crate) fn run_jwt(jwt: &JwtAuthn, case: &Case, now: Standing) -> FilterStep
    ensures step { (names : Names) → StepIs case.now result (run.run_jwt jwt.now case.now (standing case.now now names)) }
    ensures hits { result.hits ≡ stages.no_hits }
{
    match required(jwt, case) {
        None => FilterStep {
            decision: Decision::GoesOn,
            after: now,
            hits: no_hits(),
        },
        Some(requirement) => run_required(jwt, requirement, case, now),
    }
}

fn run_required(jwt: &JwtAuthn, requirement: &Requirement, case: &Case, now: Standing) -> FilterStep
    ensures step { (names : Names)
        → StepIs case.now result (run.run_required jwt.now case.now (standing case.now now names) (Some requirement.now)) }
    ensures hits { result.hits ≡ stages.no_hits }
{
    match first_position_by(jwt, requirement, case) {
        Some(at) => FilterStep {
            decision: Decision::GoesOn,
            after: with_verdict(now, at),
            hits: no_hits(),
        },
        None => FilterStep {
            decision: without_verdict(may_miss(jwt, requirement, case)),
            after: now,
            hits: no_hits(),
        },
    }
}

fn without_verdict(missing: bool) -> Decision
    ensures { decision_of result ≡ (if missing then goes_on else run.unauthenticated) }
{
    if missing {
        Decision::GoesOn
    } else {
        Decision::Unauthenticated
    }
}

// with the claims of the verdict at a position
fn with_verdict(now: Standing, at: usize) -> Standing
    ensures state { result.state ≡ record { request_seen = now.state.request_seen; peer_seen = now.state.peer_seen; verdict = Some at } }
    ensures audited { result.audited ≡ now.audited }
{
    Standing {
        state: State {
            request_seen: now.state.request_seen,
            peer_seen: now.state.peer_seen,
            verdict: Some(at),
        },
        audited: now.audited,
    }
}

// ---- access control

pub(crate) fn run_rbac(at: usize, rbac: &Rbac, case: &Case, now: Standing) -> FilterStep
    ensures step { (names : Names) → StepIs case.now result (run.run_rbac rbac.now case.now (standing case.now now names)) }
    ensures hits { result.hits ≡ stages.hits_of_rbac at case.now rbac.now (seen_of case.now now.state) }
{
    let custom = hit_at(at, held(rbac.shadow.as_ref(), case, &now.state));
    match &rbac.rules {
        None => FilterStep {
            decision: Decision::GoesOn,
            after: now,
            hits: hits_of_shadow(custom),
        },
        Some(rules) => run_rules(at, rules, effective(rules, case, &now.state), custom, now),
    }
}

/// The position of the policy of rules that holds, where there are rules and one does.
pub(crate) fn held(rules: Option<&RbacRules>, case: &Case, state: &State) -> Option<usize>
    ensures { result ≡ stages.held (option_copied rules.entry) case.now (seen_of case.now state.now) }
{
    match rules {
        None => None,
        Some(rules) => effective(rules, case, state),
    }
}

fn run_rules(
    at: usize,
    rules: &RbacRules,
    position: Option<usize>,
    custom: Option<Hit>,
    now: Standing,
) -> FilterStep
    ensures decision { decision_of result.decision
        ≡ (if access.action_passes rules.now.action (is_some position) then goes_on else refuses) }
    ensures state { result.after.state ≡ now.state }
    ensures audited { result.after.audited ≡ (now.audited || access.action_marks rules.now.action (is_some position)) }
    ensures hits { result.hits ≡ stages.hits_of_action rules.now.action at rules.now position custom }
{
    FilterStep {
        decision: decided(passes(rules.action, position.is_some())),
        after: Standing {
            state: now.state,
            audited: now.audited || marks(rules.action, position.is_some()),
        },
        hits: hits_of_action(at, rules, position, custom),
    }
}

fn passes(action: RbacAction, holds: bool) -> bool
    ensures { result ≡ access.action_passes action holds }
{
    match action {
        RbacAction::Allow => holds,
        RbacAction::Deny => !holds,
        RbacAction::Log => true,
    }
}

fn marks(action: RbacAction, holds: bool) -> bool
    ensures { result ≡ access.action_marks action holds }
{
    match action {
        RbacAction::Allow | RbacAction::Deny => false,
        RbacAction::Log => holds,
    }
}

// ---- external authorizers

/// The name is that which the filters before it have told at its key.
pub(crate) fn run_authz(
    filter: &ExtAuthz,
    name: Option<&str>,
    case: &Case,
    now: Standing,
) -> FilterStep
    ensures step { (names : Names) → option_copied name.entry ≡ name_of filter.now.enabled_key names
        → StepIs case.now result (run.run_authz filter.now case.now (standing case.now now names)) }
    ensures hits { result.hits ≡ stages.no_hits }
{
    FilterStep {
        decision: decided(!is_asked(filter, name) || service_passes(filter, case)),
        after: now,
        hits: no_hits(),
    }
}
