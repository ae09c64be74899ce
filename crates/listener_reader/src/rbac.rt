//! Filters of role-based access control, read from JSON.
ghost use Rattle.std.specs.Prelude.{◌≡◌};
ghost use Rattle.serde_json.specs.View.{view};
ghost use Rattle.mesh_doc.specs.Faults.{Reads};
ghost use Rattle.envoy_types.specs.RbacForms as form;

use crate::maps::required_members;
use envoy_types::fixed::{ALLOW, DENY, LOG, TCP_PREFIX};
use envoy_types::keys::{
    ACTION, PERMISSIONS, POLICIES, PRINCIPALS, RULES, SHADOW_PREFIX, SHADOW_RULES, STAT_PREFIX,
    TYPE,
};
use envoy_types::{
    HTTP_RBAC_NAME, HTTP_RBAC_TYPE, NETWORK_RBAC_NAME, NETWORK_RBAC_TYPE, PermissionLeaf,
    PrincipalLeaf, Rbac, RbacAction, RbacPolicy, RbacRules,
};
use leaf_json::{TreeListForm, fixed_field, named};
use mesh_doc::{AnyText, DocError, Entry, Form, Reason, Spot, optional_written, required_written};
use mesh_text::Text;
use serde_json::Value;
use std::alloc::Global;

/// The filter of HTTP chains.
pub(crate) fn read_http_rbac(alloc: Global, v: &Value, at: &Spot) -> Result<Rbac, DocError>
    ensures { Reads result (form.http_rbac_faults (view v.now) at.now) (form.rbac_in (view v.now)) }
{
    named::<HttpConfig>(alloc, v, HTTP_RBAC_NAME, at)
}

/// The filter of TCP chains.
pub(crate) fn read_network_rbac(alloc: Global, v: &Value, at: &Spot) -> Result<Rbac, DocError>
    ensures { Reads result (form.network_rbac_faults (view v.now) at.now) (form.rbac_in (view v.now)) }
{
    named::<NetworkConfig>(alloc, v, NETWORK_RBAC_NAME, at)
}

struct HttpConfig;

impl Form for HttpConfig {
    type Out = Rbac;

    ghost faults = { form.http_rbac_config_faults };

    ghost value = { form.rbac_config_in };

    #[tactic(auto, unfolding(envoy_types::specs::RbacForms::http_rbac_config_faults))]
    fn read(alloc: Global, v: &Value, at: &Spot) -> Result<Rbac, DocError> {
        at.only_fields(alloc, v, &[TYPE, RULES, SHADOW_RULES, SHADOW_PREFIX])?;
        fixed_field(alloc, v, TYPE, HTTP_RBAC_TYPE, at)?;
        rbac_fields(alloc, v, at)
    }
}

struct NetworkConfig;

impl Form for NetworkConfig {
    type Out = Rbac;

    ghost faults = { form.network_rbac_config_faults };

    ghost value = { form.rbac_config_in };

    #[tactic(auto, unfolding(envoy_types::specs::RbacForms::network_rbac_config_faults))]
    fn read(alloc: Global, v: &Value, at: &Spot) -> Result<Rbac, DocError> {
        at.only_fields(
            alloc,
            v,
            &[TYPE, RULES, SHADOW_RULES, SHADOW_PREFIX, STAT_PREFIX],
        )?;
        fixed_field(alloc, v, TYPE, NETWORK_RBAC_TYPE, at)?;
        let rbac = rbac_fields(alloc, v, at)?;
        fixed_field(alloc, v, STAT_PREFIX, TCP_PREFIX, at)?;
        Ok(rbac)
    }
}

// What both have.
#[tactic(auto, unfolding(envoy_types::specs::RbacForms::rbac_config_in))]
fn rbac_fields(alloc: Global, v: &Value, at: &Spot) -> Result<Rbac, DocError>
    ensures { Reads result (form.rbac_fields_faults (view v.now) at.now) (form.rbac_config_in (view v.now)) }
{
    let rules = optional_written::<Rules>(alloc, v, RULES, at)?;
    let shadow = optional_written::<Rules>(alloc, v, SHADOW_RULES, at)?;
    let shadow_prefix = match optional_written::<AnyText>(alloc, v, SHADOW_PREFIX, at)? {
        Some(prefix) => prefix,
        None => Text::of(alloc, "")?,
    };
    Ok(Rbac {
        rules,
        shadow,
        shadow_prefix,
    })
}

struct Rules;

impl Form for Rules {
    type Out = RbacRules;

    ghost faults = { form.rules_faults };

    ghost value = { form.rules_in };

    #[tactic(auto, unfolding(envoy_types::specs::RbacForms::rules_faults, envoy_types::specs::RbacForms::rules_in))]
    fn read(alloc: Global, v: &Value, at: &Spot) -> Result<RbacRules, DocError> {
        at.only_fields(alloc, v, &[ACTION, POLICIES])?;
        let action = optional_written::<Action>(alloc, v, ACTION, at)?;
        let policies = required_members::<Policy>(alloc, v, POLICIES, at)?;
        Ok(RbacRules {
            action: action.unwrap_or(RbacAction::Allow),
            policies,
        })
    }
}

struct Action;

impl Form for Action {
    type Out = RbacAction;

    ghost faults = { form.action_faults };

    ghost value = { form.action_in };

    #[tactic(auto, unfolding(mesh_doc::specs::Tested::tested, mesh_doc::specs::Kinds::text_faults, mesh_doc::specs::Kinds::text_in, envoy_types::specs::RbacForms::action_in))]
    fn read(alloc: Global, v: &Value, at: &Spot) -> Result<RbacAction, DocError> {
        let Value::String(word) = v else {
            return Err(at.refuse(alloc, Reason::WrongType));
        };
        match action_named(word.as_str()) {
            Some(action) => Ok(action),
            None => Err(at.refuse(alloc, Reason::BadForm)),
        }
    }
}

fn action_named(word: &str) -> Option<RbacAction>
    ensures { result ≡ form.action_of word.now }
{
    if word == ALLOW {
        return Some(RbacAction::Allow);
    }
    if word == DENY {
        return Some(RbacAction::Deny);
    }
    if word == LOG {
        return Some(RbacAction::Log);
    }
    None
}

struct Policy;

impl Entry for Policy {
    type Out = RbacPolicy;

    ghost faults = { form.policy_faults };

    ghost value = { form.policy_in };

    #[tactic(auto, unfolding(envoy_types::specs::RbacForms::policy_faults, envoy_types::specs::RbacForms::policy_in))]
    fn read(alloc: Global, key: &str, v: &Value, at: &Spot) -> Result<RbacPolicy, DocError> {
        at.only_fields(alloc, v, &[PERMISSIONS, PRINCIPALS])?;
        let permissions = required_written::<TreeListForm<PermissionLeaf>>(
            alloc,
            v,
            PERMISSIONS,
            at,
        )?;
        let principals = required_written::<TreeListForm<PrincipalLeaf>>(alloc, v, PRINCIPALS, at)?;
        Ok(RbacPolicy {
            name: Text::of(alloc, key)?,
            permissions,
            principals,
        })
    }
}
