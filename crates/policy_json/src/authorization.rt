// The `spec` of an AuthorizationPolicy.
ghost use Rattle.std.specs.Prelude.{◌≡◌, IfOk, IsTrue, option_map};
ghost use Rattle.serde_json.specs.View.{view};
ghost use Rattle.mesh_doc.specs.Faults.{Reads};
ghost use Rattle.mesh_doc.specs.Fields.{spec_of};
ghost use Rattle.mesh_policy.specs.AcceptedRules.{AcceptedPolicy};
ghost use Rattle.mesh_policy.specs.Values.{belongs};
ghost use Rattle.mesh_text.specs.Dns.{is_label, is_subdomain};
ghost use Rattle.policy_json.specs.Authorization.{action_faults, action_in, action_of, authorization_faults, authorization_in, provider_faults, provider_in};

use crate::labels::{SELECTOR, Selector};
use crate::rules::RuleEntry;
use crate::target_refs::{TARGET_REF, TARGET_REFS, no_targets};
use crate::texts::IsToken;
use mesh_doc::{
    DocError, Form, Place, Reason, Spot, Tested, empty_object, listed, optional, required,
};
use mesh_policy::{Action, AuthorizationPolicy, MOST_ENTRIES};
use mesh_text::{List, Text};
use serde_json::Value;
use std::alloc::Global;

const ACTION: &str = "action";

const PROVIDER: &str = "provider";

const RULES: &str = "rules";

const NAME: &str = "name";

const ALLOW: &str = "ALLOW";

const DENY: &str = "DENY";

const AUDIT: &str = "AUDIT";

const CUSTOM: &str = "CUSTOM";

/// The AuthorizationPolicy that the `spec` at `at` means (Istio reference, "Authorization Policy"), or its first
/// fault: UnknownField, WrongType, MissingField, TargetRefs, BadEnum, BadName, TooMany, BadValue, BadPort, BadCidr,
/// TooManySlashes, BadTemplate, BadKey, EmptyCondition, and last ProviderRule. None stands for a `spec` that is not
/// written or `null`. A list has at most 2,048 entries, and a value of a rule 1 to 1,024 bytes.
pub fn read_authorization_at(
    alloc: Global,
    name: Text,
    namespace: Text,
    spec: Option<&Value>,
    at: &Spot,
) -> Result<AuthorizationPolicy, DocError>
    ensures reads { Reads result
        (authorization_faults (spec_of (option_map (λ v. view v.now) spec.entry)) at.now)
        (authorization_in name namespace (spec_of (option_map (λ v. view v.now) spec.entry))) }
    ensures accepted { IsTrue (is_subdomain name) → IsTrue (is_label namespace) → IfOk result AcceptedPolicy }
{
    let empty = empty_object(alloc);
    read_spec(alloc, name, namespace, spec.unwrap_or(&empty), at)
}

/// As `read_authorization_at`, of the `spec` at `place`.
pub fn read_authorization(
    alloc: Global,
    name: Text,
    namespace: Text,
    spec: Option<&Value>,
    place: &Place,
) -> Result<AuthorizationPolicy, DocError>
    ensures reads { Reads result
        (authorization_faults (spec_of (option_map (λ v. view v.now) spec.entry)) place.now)
        (authorization_in name namespace (spec_of (option_map (λ v. view v.now) spec.entry))) }
    ensures accepted { IsTrue (is_subdomain name) → IsTrue (is_label namespace) → IfOk result AcceptedPolicy }
{
    read_authorization_at(alloc, name, namespace, spec, &Spot::of(place))
}

#[tactic(auto, unfolding(crate::specs::Authorization::authorization_faults, crate::specs::Authorization::authorization_in))]
fn read_spec(
    alloc: Global,
    name: Text,
    namespace: Text,
    v: &Value,
    at: &Spot,
) -> Result<AuthorizationPolicy, DocError>
    ensures { Reads result
        (authorization_faults (view v.now) at.now)
        (authorization_in name namespace (view v.now)) }
{
    at.only_fields(
        alloc,
        v,
        &[SELECTOR, TARGET_REFS, TARGET_REF, ACTION, PROVIDER, RULES],
    )?;
    let labels = optional::<Selector>(alloc, v, SELECTOR, at)?;
    no_targets(alloc, v, at)?;
    let action = optional::<ActionWord>(alloc, v, ACTION, at)?.unwrap_or(Action::Allow);
    let provider = optional::<Provider>(alloc, v, PROVIDER, at)?;
    let rules = listed::<RuleEntry>(alloc, v, RULES, MOST_ENTRIES, at)?;
    if !belongs(action, &provider) {
        return Err(at.refuse(alloc, Reason::ProviderRule));
    }
    Ok(AuthorizationPolicy {
        name,
        namespace,
        labels: labels.unwrap_or(List::new(alloc)),
        action,
        provider,
        rules,
    })
}

fn belongs(action: Action, provider: &Option<Text>) -> bool
    ensures { result ≡ belongs action provider.now }
{
    match action {
        Action::Custom => provider.is_some(),
        _ => provider.is_none(),
    }
}

struct ActionWord;

impl Form for ActionWord {
    type Out = Action;

    ghost faults = { action_faults };

    ghost value = { action_in };

    #[tactic(auto, unfolding(crate::specs::Authorization::action_faults, crate::specs::Authorization::action_in, mesh_doc::specs::Kinds::text_faults, mesh_doc::specs::Kinds::text_in))]
    fn read(alloc: Global, v: &Value, at: &Spot) -> Result<Action, DocError> {
        let Value::String(word) = v else {
            return Err(at.refuse(alloc, Reason::WrongType));
        };
        match action_named(word.as_str()) {
            Some(action) => Ok(action),
            None => Err(at.refuse(alloc, Reason::BadEnum)),
        }
    }
}

fn action_named(word: &str) -> Option<Action>
    ensures { result ≡ action_of word.now }
{
    if word == ALLOW {
        return Some(Action::Allow);
    }
    if word == DENY {
        return Some(Action::Deny);
    }
    if word == AUDIT {
        return Some(Action::Audit);
    }
    if word == CUSTOM {
        return Some(Action::Custom);
    }
    None
}

struct Provider;

impl Form for Provider {
    type Out = Text;

    ghost faults = { provider_faults };

    ghost value = { provider_in };

    #[tactic(auto, unfolding(crate::specs::Authorization::provider_faults, crate::specs::Authorization::provider_in))]
    fn read(alloc: Global, v: &Value, at: &Spot) -> Result<Text, DocError> {
        at.only_fields(alloc, v, &[NAME])?;
        required::<Tested<IsToken>>(alloc, v, NAME, at)
    }
}
