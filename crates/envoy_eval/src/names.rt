// The names of policies that shadow rules have told, looked up in the filters that told them.
ghost use Rattle.std.specs.Prelude.{◌≡◌, false, Some, None, if◌then◌else◌};
ghost use Rattle.std.specs.Option.{option_copied, option_or};
ghost use Rattle.std.specs.Str.{bytes_eq};
ghost use Rattle.mesh_policy.specs.Token as token;
ghost use Rattle.mesh_policy.specs.declared.case.Case.{Case};
ghost use Rattle.envoy_types.specs.Access as access;
ghost use Rattle.envoy_types.specs.Run.{RunState, name_of, shadow_key};
ghost use Rattle.envoy_types.specs.Run as meaning;
ghost use Rattle.envoy_types.specs.State.{seen_of};
ghost use Rattle.envoy_types.specs.declared.state.State.{State};
ghost use Rattle.envoy_eval.specs.Filters.{run_part};
ghost use Rattle.envoy_eval.specs.Names as names;
ghost use Rattle.envoy_eval.specs.Runs.{after, begin};

use crate::access::effective;
use crate::filters::{Filter, Part};
use crate::hits::Hit;
use crate::steps::{Standing, run_jwt};
use envoy_types::{JwtAuthn, Rbac, RbacRules, SHADOW_POLICY_KEY, State};
use mesh_policy::Case;

/// The name that the filters so far have told at one metadata key.
#[derive(Clone, Copy)]
pub(crate) struct Told<'a> {
    pub(crate) key: &'a str,
    pub(crate) name: Option<&'a str>,
}

/// The same at another key. Filters are looked back at only where it is another one.
pub(crate) fn told_at<'a, F: Filter>(
    key: &'a str,
    filters: &'a [F],
    case: &Case,
    start: State,
    now: State,
    told: Told<'a>,
) -> Told<'a>
    requires seen { seen_of case.now now ≡ (after (F.run case.now) filters.now (begin case.now start)).seen }
    requires told { option_copied told.name
        ≡ name_of told.key.now (after (F.run case.now) filters.now (begin case.now start)).names }
    ensures key { result.key.now ≡ key.now }
    ensures name { option_copied result.name ≡ name_of key.now (after (F.run case.now) filters.now (begin case.now start)).names }
{
    if told.key == key {
        Told {
            key,
            name: told.name,
        }
    } else {
        Told {
            key,
            name: name_looked_up(filters, key, case, start, now),
        }
    }
}

// From the last filter on, so that no token filter is run again but where one stands behind rules that tell the name.
fn name_looked_up<'a, F: Filter>(
    filters: &'a [F],
    key: &str,
    case: &Case,
    start: State,
    now: State,
) -> Option<&'a str>
    requires { seen_of case.now now ≡ (after (F.run case.now) filters.now (begin case.now start)).seen }
    ensures { option_copied result ≡ name_of key.now (after (F.run case.now) filters.now (begin case.now start)).names }
{
    let mut left = filters.len();
    while left > 0 {
        let at = left - 1;
        if is_token_filter(filters[at].part()) {
            return name_again(&filters[..left], key, case, start);
        }
        if let Some(name) = name_in(filters[at].part(), key, case, &now) {
            return Some(name);
        }
        left = at;
    }
    None
}

fn is_token_filter(part: Part<'_>) -> bool
    ensures { (case : Case) (before : RunState) → result ≡ false → (run_part case part.entry before).state.seen ≡ before.seen }
{
    match part {
        Part::Jwt(_) => true,
        Part::Rbac(_) | Part::ExtAuthz(_) => false,
    }
}

// the name that a filter tells by what is seen there
fn name_in<'a>(part: Part<'a>, key: &str, case: &Case, state: &State) -> Option<&'a str>
    ensures { (before : RunState) → before.seen ≡ seen_of case.now state.now
        → name_of key.now (run_part case.now part.entry before).state.names
        ≡ option_or (option_copied result) (name_of key.now before.names) }
{
    match part {
        Part::Jwt(_) | Part::ExtAuthz(_) => None,
        Part::Rbac(rbac) => name_behind_rbac(rbac, key, case, state, None),
    }
}

// Where none of them tells under the key, none is run again.
fn name_again<'a, F: Filter>(
    filters: &'a [F],
    key: &str,
    case: &Case,
    start: State,
) -> Option<&'a str>
    ensures { option_copied result ≡ name_of key.now (after (F.run case.now) filters.now (begin case.now start)).names }
{
    if one_tells(filters, key) {
        name_before(filters, key, case, start)
    } else {
        None
    }
}

fn one_tells<F: Filter>(filters: &[F], key: &str) -> bool
    ensures { (case : Case) (start : State) → result ≡ false
        → name_of key.now (after (F.run case) filters.now (begin case start)).names ≡ None }
{
    for filter in filters {
        if may_tell(filter.part(), key) {
            return true;
        }
    }
    false
}

fn may_tell(part: Part<'_>, key: &str) -> bool
    ensures { (case : Case) (before : RunState) → result ≡ false
        → name_of key.now (run_part case part.entry before).state.names ≡ name_of key.now before.names }
{
    match part {
        Part::Jwt(_) | Part::ExtAuthz(_) => false,
        Part::Rbac(rbac) => tells_key(rbac, key),
    }
}

/// The name behind a filter whose shadow rules had this hit.
pub(crate) fn told_behind<'a>(rbac: &'a Rbac, hit: Option<Hit>, told: Told<'a>) -> Told<'a>
    ensures key { result.key.now ≡ told.entry.key.now }
    ensures name { option_copied result.name ≡ (if bytes_eq (shadow_key rbac.now) told.entry.key.now
        then option_or (names.name_of_hit rbac.now.shadow hit) (option_copied told.entry.name)
        else option_copied told.entry.name) }
{
    if tells_key(rbac, told.key) {
        Told {
            key: told.key,
            name: first_name(name_of_hit(rbac, hit), told.name),
        }
    } else {
        told
    }
}

fn name_of_hit(rbac: &Rbac, hit: Option<Hit>) -> Option<&str>
    ensures { option_copied result ≡ names.name_of_hit rbac.now.shadow hit }
{
    match &rbac.shadow {
        None => None,
        Some(rules) => name_at(rules, policy_of(hit)),
    }
}

fn policy_of(hit: Option<Hit>) -> Option<usize>
    ensures { result ≡ names.policy_of hit }
{
    match hit {
        None => None,
        Some(hit) => Some(hit.policy),
    }
}

/// The name that filters which all went on have told at a metadata key. The last of them that tells one counts.
fn name_before<'a, F: Filter>(
    filters: &'a [F],
    key: &str,
    case: &Case,
    start: State,
) -> Option<&'a str>
    ensures { option_copied result ≡ name_of key.now (after (F.run case.now) filters.now (begin case.now start)).names }
{
    let mut state = start;
    let mut name = None;
    for filter in filters {
        name = name_behind(filter.part(), key, case, &state, name);
        state = state_behind(filter.part(), case, state);
    }
    name
}

fn state_behind(part: Part<'_>, case: &Case, state: State) -> State
    ensures { (before : RunState) → before.seen ≡ seen_of case.now state
        → seen_of case.now result ≡ (run_part case.now part.entry before).state.seen }
{
    match part {
        Part::Jwt(jwt) => state_behind_jwt(jwt, case, state),
        Part::Rbac(_) | Part::ExtAuthz(_) => state,
    }
}

fn state_behind_jwt(jwt: &JwtAuthn, case: &Case, state: State) -> State
    ensures { (before : RunState) → before.seen ≡ seen_of case.now state
        → seen_of case.now result ≡ (meaning.run_jwt jwt.now case.now before).state.seen }
{
    let now = Standing {
        state,
        audited: false,
    };
    run_jwt(jwt, case, now).after.state
}

fn name_behind<'a>(
    part: Part<'a>,
    key: &str,
    case: &Case,
    state: &State,
    name: Option<&'a str>,
) -> Option<&'a str>
    ensures { (before : RunState) → before.seen ≡ seen_of case.now state.now → option_copied name.entry ≡ name_of key.now before.names
        → option_copied result ≡ name_of key.now (run_part case.now part.entry before).state.names }
{
    match part {
        Part::Jwt(_) => name,
        Part::Rbac(rbac) => name_behind_rbac(rbac, key, case, state, name),
        Part::ExtAuthz(_) => name,
    }
}

fn name_behind_rbac<'a>(
    rbac: &'a Rbac,
    key: &str,
    case: &Case,
    state: &State,
    name: Option<&'a str>,
) -> Option<&'a str>
    ensures { option_copied result ≡ (if bytes_eq (shadow_key rbac.now) key.now
        then option_or (access.shadow_name rbac.now.shadow case.now (seen_of case.now state.now)) (option_copied name.entry)
        else option_copied name.entry) }
{
    if tells_key(rbac, key) {
        first_name(shadow_name(rbac, case, state), name)
    } else {
        name
    }
}

fn first_name<'a>(first: Option<&'a str>, other: Option<&'a str>) -> Option<&'a str>
    ensures { option_copied result ≡ option_or (option_copied first.entry) (option_copied other.entry) }
{
    match first {
        None => other,
        Some(name) => Some(name),
    }
}

// whether shadow rules tell under this key
fn tells_key(rbac: &Rbac, key: &str) -> bool
    ensures { result ≡ bytes_eq (shadow_key rbac.now) key.now }
{
    match behind(&rbac.shadow_prefix, key) {
        None => false,
        Some(rest) => SHADOW_POLICY_KEY == rest,
    }
}

fn behind<'a>(prefix: &str, key: &'a str) -> Option<&'a str>
    ensures { option_copied result ≡ token.behind prefix.now (Some key.now) }
{
    key.strip_prefix(prefix)
}

fn shadow_name<'a>(rbac: &'a Rbac, case: &Case, state: &State) -> Option<&'a str>
    ensures { option_copied result ≡ access.shadow_name rbac.now.shadow case.now (seen_of case.now state.now) }
{
    match &rbac.shadow {
        None => None,
        Some(rules) => name_at(rules, effective(rules, case, state)),
    }
}

fn name_at(rules: &RbacRules, position: Option<usize>) -> Option<&str>
    ensures { option_copied result ≡ access.name_at rules.now position }
{
    match position {
        None => None,
        Some(at) => match rules.policies.get(at) {
            None => None,
            Some(policy) => Some(policy.name.as_str()),
        },
    }
}
