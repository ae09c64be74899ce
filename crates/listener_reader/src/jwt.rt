//! The token filter, read from JSON.
ghost use Rattle.serde_json.specs.View.{view};
ghost use Rattle.mesh_doc.specs.Faults.{Reads};
ghost use Rattle.envoy_types.specs.JwtForms as form;

use crate::lists::{Any, FormWith, Plain, optional_with, required_with};
use crate::maps::required_members;
use crate::parts::required_inside;
use crate::providers::Provider;
use crate::requirements::{Providers, RequirementForm};
use envoy_types::keys::{MATCH, PREFIX, PROVIDERS, REQUIRES, RULES, TYPE};
use envoy_types::{JWT_NAME, JWT_TYPE, JwtAuthn, JwtCheck};
use leaf_json::{fixed_field, named};
use mesh_doc::{AnyText, DocError, Form, Spot};
use serde_json::Value;
use std::alloc::Global;

/// The filter that judges tokens.
pub(crate) fn read_jwt(alloc: Global, v: &Value, at: &Spot) -> Result<JwtAuthn, DocError>
    ensures { Reads result (form.jwt_faults (view v.now) at.now) (form.jwt_in (view v.now)) }
{
    named::<Config>(alloc, v, JWT_NAME, at)
}

struct Config;

impl Form for Config {
    type Out = JwtAuthn;

    ghost faults = { form.jwt_config_faults };

    ghost value = { form.jwt_config_in };

    #[tactic(auto, unfolding(envoy_types::specs::JwtForms::jwt_config_faults, envoy_types::specs::JwtForms::jwt_config_in, envoy_types::specs::JwtForms::providers_in))]
    fn read(alloc: Global, v: &Value, at: &Spot) -> Result<JwtAuthn, DocError> {
        at.only_fields(alloc, v, &[TYPE, PROVIDERS, RULES])?;
        fixed_field(alloc, v, TYPE, JWT_TYPE, at)?;
        let all = required_members::<Provider>(alloc, v, PROVIDERS, at)?;
        let providers = Providers { all };
        let rules = required_with::<Any<Check>>(alloc, &providers, v, RULES, at)?;
        Ok(JwtAuthn {
            providers: providers.all,
            rules,
        })
    }
}

// A rule, which names providers of the filter.
struct Check;

impl FormWith for Check {
    type Given = Providers;

    type Out = JwtCheck;

    ghost faults = { λ providers. form.check_faults (form.provider_names providers) };

    ghost value = { form.check_in };

    #[tactic(auto, unfolding(envoy_types::specs::JwtForms::check_faults, envoy_types::specs::JwtForms::prefix_match_faults, envoy_types::specs::JwtForms::check_in))]
    fn read(alloc: Global, given: &Providers, v: &Value, at: &Spot) -> Result<JwtCheck, DocError> {
        at.only_fields(alloc, v, &[MATCH, REQUIRES])?;
        let prefix = required_inside::<Plain<AnyText>>(alloc, &(), v, MATCH, PREFIX, at)?;
        let requirement = optional_with::<RequirementForm>(alloc, given, v, REQUIRES, at)?;
        Ok(JwtCheck {
            prefix,
            requirement,
        })
    }
}
