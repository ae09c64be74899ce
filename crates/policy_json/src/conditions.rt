// The conditions of a rule: a key, and values in the form that the key gives them.
ghost use Rattle.serde_json.specs.View.{view};
ghost use Rattle.mesh_doc.specs.Faults.{Reads};
ghost use Rattle.policy_json.specs.Conditions as conditions;
ghost use Rattle.policy_json.specs.Conditions.{condition_faults, condition_in};

use crate::both_listed::{ValueLists, both_listed};
use crate::condition_keys::{ConditionKey, KeyName};
use crate::texts::ShortText;
use crate::values::{BlockValue, PortValue, RequestPrincipal};
use mesh_doc::{DocError, Form, Reason, Spot, required};
use mesh_policy::{Condition, TextKey};
use serde_json::Value;
use std::alloc::Global;

const KEY: &str = "key";

const VALUES: &str = "values";

const NOT_VALUES: &str = "notValues";

/// A condition: its unknown fields, its key, and then the faults of its values in the form that the key gives them.
/// EmptyCondition at one without values.
pub(crate) struct WhenEntry;

impl Form for WhenEntry {
    type Out = Condition;

    ghost faults = { condition_faults };

    ghost value = { condition_in };

    #[tactic(auto, unfolding(crate::specs::Conditions::condition_faults, crate::specs::Conditions::condition_in))]
    fn read(alloc: Global, v: &Value, at: &Spot) -> Result<Condition, DocError> {
        at.only_fields(alloc, v, &[KEY, VALUES, NOT_VALUES])?;
        let key = required::<KeyName>(alloc, v, KEY, at)?;
        with_key(alloc, key, v, at)
    }
}

fn with_key(alloc: Global, key: ConditionKey, v: &Value, at: &Spot) -> Result<Condition, DocError>
    ensures { Reads result
        (conditions.values_faults key (view v.now) at.now)
        (conditions.values_in key (view v.now)) }
{
    match key {
        ConditionKey::Words(key) => {
            let ValueLists { values, not_values } = both_lists::<ShortText>(alloc, v, at)?;
            Ok(Condition::Words {
                key,
                values,
                not_values,
            })
        }
        ConditionKey::Principals => {
            let ValueLists { values, not_values } = both_lists::<RequestPrincipal>(alloc, v, at)?;
            Ok(Condition::Words {
                key: TextKey::AuthPrincipal,
                values,
                not_values,
            })
        }
        ConditionKey::Blocks(key) => {
            let ValueLists { values, not_values } = both_lists::<BlockValue>(alloc, v, at)?;
            Ok(Condition::Blocks {
                key,
                values,
                not_values,
            })
        }
        ConditionKey::Ports => {
            let ValueLists { values, not_values } = both_lists::<PortValue>(alloc, v, at)?;
            Ok(Condition::Ports { values, not_values })
        }
    }
}

#[tactic(auto, unfolding(crate::specs::Conditions::both_faults))]
fn both_lists<F: Form>(alloc: Global, v: &Value, at: &Spot) -> Result<ValueLists<F::Out>, DocError>
    ensures { Reads result
        (conditions.both_faults F.faults F.value (view v.now) at.now)
        (conditions.both_in F.value (view v.now)) }
{
    let lists = both_listed::<F>(alloc, v, VALUES, NOT_VALUES, at)?;
    if lists.values.is_empty() && lists.not_values.is_empty() {
        return Err(at.refuse(alloc, Reason::EmptyCondition));
    }
    Ok(lists)
}
