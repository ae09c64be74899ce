// AuthorizationPolicies: every action but ALLOW and DENY, and what asks for the token of a request.
ghost use Rattle.std.specs.Prelude.{◌≡◌, not};
ghost use Rattle.serde_json.specs.View.{view};
ghost use Rattle.mesh_doc.specs.Faults.{Reads};
ghost use Rattle.kept_back.specs.Fields.{kept_unless};
ghost use Rattle.kept_back.specs.Policies.{action_kept, is_decided_word, policy_kept, rule_kept, spec_kept};
ghost use Rattle.kept_back.specs.Policies.{condition_kept, from_kept, is_token_key, source_kept};

use crate::fields::no_entries;
use crate::items::SPEC;
use mesh_doc::{DocError, Form, Reason, Spot, listed, optional, or_empty};
use mesh_policy::MOST_ENTRIES;
use mesh_text::is_prefix;
use serde_json::Value;
use std::alloc::Global;

const ACTION: &str = "action";

const ALLOW: &str = "ALLOW";

const DENY: &str = "DENY";

const RULES: &str = "rules";

const FROM: &str = "from";

const WHEN: &str = "when";

const SOURCE: &str = "source";

const REQUEST_PRINCIPALS: &str = "requestPrincipals";

const NOT_REQUEST_PRINCIPALS: &str = "notRequestPrincipals";

const KEY: &str = "key";

// what the keys on the token of a request begin with
const REQUEST_AUTH: &str = "request.auth.";

/// Tells the first place of the policy `v` at `at` that no listener is built for.
#[tactic(auto, unfolding(crate::specs::Policies::policy_kept))]
pub(crate) fn read_policy(alloc: Global, v: &Value, at: &Spot) -> Result<(), DocError>
    ensures { Reads result (policy_kept (view v.now) at.now) tt }
{
    or_empty::<Spec>(alloc, v, SPEC, at)
}

struct Spec;

impl Form for Spec {
    type Out = ();

    ghost faults = { spec_kept };

    ghost value = { λ _. tt };

    #[tactic(auto, unfolding(crate::specs::Policies::spec_kept))]
    fn read(alloc: Global, v: &Value, at: &Spot) -> Result<(), DocError> {
        optional::<ActionWord>(alloc, v, ACTION, at)?;
        listed::<RuleEntry>(alloc, v, RULES, MOST_ENTRIES, at)?;
        Ok(())
    }
}

struct ActionWord;

impl Form for ActionWord {
    type Out = ();

    ghost faults = { action_kept };

    ghost value = { λ _. tt };

    #[tactic(auto, unfolding(crate::specs::Policies::action_kept))]
    fn read(alloc: Global, v: &Value, at: &Spot) -> Result<(), DocError> {
        if is_decided_word(v) {
            return Ok(());
        }
        Err(at.refuse(alloc, Reason::UnknownField))
    }
}

#[tactic(auto, unfolding(crate::specs::Policies::is_decided_word, mesh_doc::specs::Kinds::text_in))]
fn is_decided_word(v: &Value) -> bool
    ensures { result ≡ is_decided_word (view v.now) }
{
    match v {
        Value::String(word) => word.as_str() == ALLOW || word.as_str() == DENY,
        _ => false,
    }
}

struct RuleEntry;

impl Form for RuleEntry {
    type Out = ();

    ghost faults = { rule_kept };

    ghost value = { λ _. tt };

    #[tactic(auto, unfolding(crate::specs::Policies::rule_kept))]
    fn read(alloc: Global, v: &Value, at: &Spot) -> Result<(), DocError> {
        listed::<FromEntry>(alloc, v, FROM, MOST_ENTRIES, at)?;
        listed::<ConditionEntry>(alloc, v, WHEN, MOST_ENTRIES, at)?;
        Ok(())
    }
}

// ---- sources

struct FromEntry;

impl Form for FromEntry {
    type Out = ();

    ghost faults = { from_kept };

    ghost value = { λ _. tt };

    #[tactic(auto, unfolding(crate::specs::Policies::from_kept))]
    fn read(alloc: Global, v: &Value, at: &Spot) -> Result<(), DocError> {
        or_empty::<Source>(alloc, v, SOURCE, at)
    }
}

struct Source;

impl Form for Source {
    type Out = ();

    ghost faults = { source_kept };

    ghost value = { λ _. tt };

    #[tactic(auto, unfolding(crate::specs::Policies::source_kept))]
    fn read(alloc: Global, v: &Value, at: &Spot) -> Result<(), DocError> {
        no_entries(alloc, v, REQUEST_PRINCIPALS, at)?;
        no_entries(alloc, v, NOT_REQUEST_PRINCIPALS, at)
    }
}

// ---- conditions

struct ConditionEntry;

impl Form for ConditionEntry {
    type Out = ();

    ghost faults = { condition_kept };

    ghost value = { λ _. tt };

    #[tactic(auto, unfolding(crate::specs::Policies::condition_kept))]
    fn read(alloc: Global, v: &Value, at: &Spot) -> Result<(), DocError> {
        optional::<KeyWord>(alloc, v, KEY, at)?;
        Ok(())
    }
}

struct KeyWord;

impl Form for KeyWord {
    type Out = ();

    ghost faults = { kept_unless (λ d. not (is_token_key d)) };

    ghost value = { λ _. tt };

    fn read(alloc: Global, v: &Value, at: &Spot) -> Result<(), DocError> {
        if is_token_key(v) {
            return Err(at.refuse(alloc, Reason::UnknownField));
        }
        Ok(())
    }
}

#[tactic(auto, unfolding(crate::specs::Policies::is_token_key, mesh_doc::specs::Kinds::text_in))]
fn is_token_key(v: &Value) -> bool
    ensures { result ≡ is_token_key (view v.now) }
{
    match v {
        Value::String(key) => is_prefix(REQUEST_AUTH, key.as_str()),
        _ => false,
    }
}
