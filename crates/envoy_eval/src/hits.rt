// The policies that filters hit.
ghost use Rattle.std.specs.Prelude.{◌≡◌};
ghost use Rattle.std.specs.Option.{option_or};
ghost use Rattle.envoy_types.specs.Access.{Rules, name_at};
ghost use Rattle.envoy_types.specs.State.{holds_of};
ghost use Rattle.envoy_eval.specs.Hits as stages;

use envoy_types::{RbacAction, RbacRules};
use mesh_policy::Verdict;
use mesh_text::is_prefix;

/// What the filters of a listener make of a case. None for a stage that no filter that ran had a hit of.
#[derive(Clone, Copy, Debug, PartialEq, Eq)]
pub struct Hits {
    /// The position of the filter chain that the connection goes to.
    pub chain: Option<usize>,
    /// The first hit of shadow rules, which tell the policy that an external authorizer is asked for.
    pub custom: Option<Hit>,
    /// The first hit of LOG rules.
    pub audit: Option<Hit>,
    /// The first hit of DENY rules whose policy isn't one that stands in for an authorizer.
    pub deny: Option<Hit>,
    /// The first hit of ALLOW rules.
    pub allow: Option<Hit>,
    pub verdict: Verdict,
}

/// The policy that rules of a filter come down to: the first that holds, in byte order of names.
#[derive(Clone, Copy, Debug, PartialEq, Eq)]
pub struct Hit {
    /// The position of the filter in its chain.
    pub filter: usize,
    /// The position of the policy in the rules.
    pub policy: usize,
}

/// The first hit of each stage.
#[derive(Clone, Copy)]
pub(crate) struct StageHits {
    pub(crate) custom: Option<Hit>,
    pub(crate) audit: Option<Hit>,
    pub(crate) deny: Option<Hit>,
    pub(crate) allow: Option<Hit>,
}

/// What the names of policies begin with that stand in for an external authorizer.
const AUTHORIZER_FRONT: &str = "istio-ext-authz-";

pub(crate) fn no_hits() -> StageHits
    ensures { result ≡ stages.no_hits }
{
    StageHits {
        custom: None,
        audit: None,
        deny: None,
        allow: None,
    }
}

/// Of each stage the first hit.
pub(crate) fn first_hits(first: StageHits, later: StageHits) -> StageHits
    ensures { result ≡ stages.first_hits first later }
{
    StageHits {
        custom: first_hit(first.custom, later.custom),
        audit: first_hit(first.audit, later.audit),
        deny: first_hit(first.deny, later.deny),
        allow: first_hit(first.allow, later.allow),
    }
}

fn first_hit(first: Option<Hit>, later: Option<Hit>) -> Option<Hit>
    ensures { result ≡ option_or first later }
{
    match first {
        None => later,
        Some(hit) => Some(hit),
    }
}

/// The hit of a policy at a position, if there is one.
pub(crate) fn hit_at(at: usize, position: Option<usize>) -> Option<Hit>
    ensures { result ≡ stages.hit_at at position }
{
    match position {
        None => None,
        Some(policy) => Some(Hit { filter: at, policy }),
    }
}

/// The hit of shadow rules alone.
pub(crate) fn hits_of_shadow(custom: Option<Hit>) -> StageHits
    ensures { result ≡ stages.hits_of_shadow custom }
{
    StageHits {
        custom,
        audit: None,
        deny: None,
        allow: None,
    }
}

/// That hit, and the hit of rules of which the policy at a position holds.
pub(crate) fn hits_of_action(
    at: usize,
    rules: &RbacRules,
    position: Option<usize>,
    custom: Option<Hit>,
) -> StageHits
    ensures { result ≡ stages.hits_of_action rules.now.action at rules.now position custom }
{
    match rules.action {
        RbacAction::Allow => StageHits {
            custom,
            audit: None,
            deny: None,
            allow: hit_at(at, position),
        },
        RbacAction::Deny => StageHits {
            custom,
            audit: None,
            deny: hit_at(at, own_position(rules, position)),
            allow: None,
        },
        RbacAction::Log => StageHits {
            custom,
            audit: hit_at(at, position),
            deny: None,
            allow: None,
        },
    }
}

// the position, unless the policy there stands in for an authorizer
fn own_position(rules: &RbacRules, position: Option<usize>) -> Option<usize>
    ensures { result ≡ stages.own_position rules.now position }
{
    match position {
        None => None,
        Some(at) => {
            if names_authorizer(rules, at) {
                None
            } else {
                Some(at)
            }
        }
    }
}

fn names_authorizer(rules: &RbacRules, position: usize) -> bool
    ensures { result ≡ stages.names_authorizer rules.now position }
{
    match rules.policies.get(position) {
        None => false,
        Some(policy) => is_prefix(AUTHORIZER_FRONT, &policy.name),
    }
}
