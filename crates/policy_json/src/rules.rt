// The rules of an AuthorizationPolicy.
ghost use Rattle.policy_json.specs.Rules.{from_faults, from_in, rule_faults, rule_in, to_faults, to_in};

use crate::conditions::WhenEntry;
use crate::operations::Operation;
use crate::sources::Source;
use mesh_doc::{DocError, Form, Spot, listed, or_empty};
use mesh_policy::{MOST_ENTRIES, OperationSpec, Rule, SourceSpec};
use serde_json::Value;
use std::alloc::Global;

const FROM: &str = "from";

const TO: &str = "to";

const WHEN: &str = "when";

const SOURCE: &str = "source";

const OPERATION: &str = "operation";

/// A rule: its unknown fields, and then the faults of its sources, its operations and its conditions.
pub(crate) struct RuleEntry;

impl Form for RuleEntry {
    type Out = Rule;

    ghost faults = { rule_faults };

    ghost value = { rule_in };

    #[tactic(auto, unfolding(crate::specs::Rules::rule_faults, crate::specs::Rules::rule_in))]
    fn read(alloc: Global, v: &Value, at: &Spot) -> Result<Rule, DocError> {
        at.only_fields(alloc, v, &[FROM, TO, WHEN])?;
        let sources = listed::<FromEntry>(alloc, v, FROM, MOST_ENTRIES, at)?;
        let operations = listed::<ToEntry>(alloc, v, TO, MOST_ENTRIES, at)?;
        let conditions = listed::<WhenEntry>(alloc, v, WHEN, MOST_ENTRIES, at)?;
        Ok(Rule {
            sources,
            operations,
            conditions,
        })
    }
}

struct FromEntry;

impl Form for FromEntry {
    type Out = SourceSpec;

    ghost faults = { from_faults };

    ghost value = { from_in };

    #[tactic(auto, unfolding(crate::specs::Rules::from_faults, crate::specs::Rules::from_in))]
    fn read(alloc: Global, v: &Value, at: &Spot) -> Result<SourceSpec, DocError> {
        at.only_fields(alloc, v, &[SOURCE])?;
        or_empty::<Source>(alloc, v, SOURCE, at)
    }
}

struct ToEntry;

impl Form for ToEntry {
    type Out = OperationSpec;

    ghost faults = { to_faults };

    ghost value = { to_in };

    #[tactic(auto, unfolding(crate::specs::Rules::to_faults, crate::specs::Rules::to_in))]
    fn read(alloc: Global, v: &Value, at: &Spot) -> Result<OperationSpec, DocError> {
        at.only_fields(alloc, v, &[OPERATION])?;
        or_empty::<Operation>(alloc, v, OPERATION, at)
    }
}
