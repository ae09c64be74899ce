//! The token filter as JSON.
ghost use Rattle.std.specs.Prelude.{◌≡◌, ◌++◌, IfOk, map};
ghost use Rattle.serde_json.specs.Data.{array};
ghost use Rattle.serde_json.specs.View.{items_of, view};
ghost use Rattle.envoy_types.specs.JwtForms as form;

use crate::lists::{Spelled, list_value, map_value, put_optional};
use envoy_types::keys::{
    ALLOW_MISSING, MATCH, PREFIX, PROVIDER_NAME, PROVIDERS, REQUIREMENTS, REQUIRES, REQUIRES_ANY,
    RULES,
};
use envoy_types::{JWT_NAME, JWT_TYPE, JwtAuthn, JwtCheck, Requirement};
use leaf_json::{Fields, config_of, named_value, sole_field, text_value};
use mesh_text::{Memory, Text};
use serde_json::Value;
use std::alloc::Global;

/// The filter that judges tokens.
#[tactic(auto, unfolding(envoy_types::specs::JwtForms::jwt_written))]
pub(crate) fn jwt_value(alloc: Global, jwt: &JwtAuthn) -> Result<Value, Memory>
    ensures { IfOk result (λ v. view v ≡ form.jwt_written jwt.now) }
{
    let providers = map_value(alloc, &jwt.providers)?;
    let rules = list_value(alloc, &jwt.rules)?;
    let mut config = config_of(alloc, JWT_TYPE)?;
    config.put(alloc, PROVIDERS, providers)?;
    config.put(alloc, RULES, rules)?;
    named_value(alloc, JWT_NAME, config.into_value())
}

impl Spelled for JwtCheck {
    ghost use Rattle.envoy_types.specs.JwtForms.{check_written};

    ghost written = { check_written };

    #[tactic(auto, unfolding(envoy_types::specs::JwtForms::check_written))]
    fn to_value(&self, alloc: Global) -> Result<Value, Memory> {
        let paths = sole_field(alloc, PREFIX, text_value(alloc, &self.prefix)?)?;
        let mut fields = Fields::new(alloc);
        fields.put(alloc, MATCH, paths)?;
        put_optional(alloc, &mut fields, REQUIRES, self.requirement.as_ref())?;
        Ok(fields.into_value())
    }
}

impl Spelled for Requirement {
    ghost use Rattle.envoy_types.specs.JwtForms.{requirement_written};

    ghost written = { requirement_written };

    #[tactic(auto, unfolding(envoy_types::specs::JwtForms::requirement_written))]
    fn to_value(&self, alloc: Global) -> Result<Value, Memory> {
        match self {
            Requirement::One(name) => provider_name(alloc, name),
            Requirement::AnyOf {
                names,
                allow_missing,
            } => {
                let list = requirements(alloc, names, *allow_missing)?;
                let inside = sole_field(alloc, REQUIREMENTS, list)?;
                sole_field(alloc, REQUIRES_ANY, inside)
            }
        }
    }
}

fn provider_name(alloc: Global, name: &str) -> Result<Value, Memory>
    ensures { IfOk result (λ v. view v ≡ form.provider_name_written name.now) }
{
    let value = text_value(alloc, name)?;
    sole_field(alloc, PROVIDER_NAME, value)
}

// The providers, and then that a token may be missing.
fn requirements(alloc: Global, names: &[Text], allow_missing: bool) -> Result<Value, Memory>
    ensures { IfOk result (λ v. view v ≡ array (items_of
        (map form.provider_name_written names.now ++ form.missing_entries allow_missing))) }
{
    let mut values = provider_names(alloc, names)?;
    if allow_missing {
        let value = sole_field(alloc, ALLOW_MISSING, Fields::new(alloc).into_value())?;
        serde_json::push(&mut values, value)?;
        Ok(Value::Array(values))
    } else {
        Ok(Value::Array(values))
    }
}

fn provider_names(alloc: Global, names: &[Text]) -> Result<Vec<Value>, Memory>
    ensures { IfOk result (λ vs. map view vs.items ≡ map form.provider_name_written names.now) }
{
    let mut values = Vec::new(alloc);
    for name in names {
        let value = provider_name(alloc, name)?;
        serde_json::push(&mut values, value)?;
    }
    Ok(values)
}
