//! Filters of role-based access control as JSON.
ghost use Rattle.std.specs.Prelude.{◌≡◌, IfOk, OnOk};
ghost use Rattle.serde_json.specs.View.{view};
ghost use Rattle.envoy_types.specs.RbacForms as form;
ghost use Rattle.envoy_types.specs.WrittenFields.{fields_onto};
ghost use Rattle.leaf_json.specs.Fields.{members_of};

use crate::lists::{Named, Spelled, map_value, put_optional};
use envoy_types::fixed::{ALLOW, DENY, LOG, TCP_PREFIX};
use envoy_types::keys::{
    ACTION, PERMISSIONS, POLICIES, PRINCIPALS, RULES, SHADOW_PREFIX, SHADOW_RULES, STAT_PREFIX,
};
use envoy_types::{
    HTTP_RBAC_NAME, HTTP_RBAC_TYPE, NETWORK_RBAC_NAME, NETWORK_RBAC_TYPE, Rbac, RbacAction,
    RbacPolicy, RbacRules,
};
use leaf_json::{Fields, config_of, named_value, tree_list_value};
use mesh_text::Memory;
use serde_json::Value;
use std::alloc::Global;

/// The filter of HTTP chains.
#[tactic(auto, unfolding(envoy_types::specs::RbacForms::http_rbac_written))]
pub(crate) fn http_rbac(alloc: Global, rbac: &Rbac) -> Result<Value, Memory>
    ensures { IfOk result (λ v. view v ≡ form.http_rbac_written rbac.now) }
{
    let mut config = config_of(alloc, HTTP_RBAC_TYPE)?;
    put_rbac(alloc, &mut config, rbac)?;
    named_value(alloc, HTTP_RBAC_NAME, config.into_value())
}

/// The filter of TCP chains, with its prefix of statistics.
#[tactic(auto, unfolding(envoy_types::specs::RbacForms::network_rbac_written))]
pub(crate) fn network_rbac(alloc: Global, rbac: &Rbac) -> Result<Value, Memory>
    ensures { IfOk result (λ v. view v ≡ form.network_rbac_written rbac.now) }
{
    let mut config = config_of(alloc, NETWORK_RBAC_TYPE)?;
    put_rbac(alloc, &mut config, rbac)?;
    config.put_text(alloc, STAT_PREFIX, TCP_PREFIX)?;
    named_value(alloc, NETWORK_RBAC_NAME, config.into_value())
}

// What both have.
fn put_rbac(alloc: Global, config: &mut Fields, rbac: &Rbac) -> Result<(), Memory>
    ensures { OnOk result (members_of config.new ≡ fields_onto (members_of config.old) (form.rbac_fields rbac.now)) }
{
    put_optional(alloc, config, RULES, rbac.rules.as_ref())?;
    put_optional(alloc, config, SHADOW_RULES, rbac.shadow.as_ref())?;
    config.put_filled(alloc, SHADOW_PREFIX, &rbac.shadow_prefix)
}

impl Spelled for RbacRules {
    ghost use Rattle.envoy_types.specs.RbacForms.{rules_written};

    ghost written = { rules_written };

    #[tactic(auto, unfolding(envoy_types::specs::RbacForms::rules_written))]
    fn to_value(&self, alloc: Global) -> Result<Value, Memory> {
        let policies = map_value(alloc, &self.policies)?;
        let mut fields = Fields::new(alloc);
        fields.put_text(alloc, ACTION, action_word(self.action))?;
        fields.put(alloc, POLICIES, policies)?;
        Ok(fields.into_value())
    }
}

fn action_word(action: RbacAction) -> &'static str
    ensures { result.now ≡ form.action_word action }
{
    match action {
        RbacAction::Allow => ALLOW,
        RbacAction::Deny => DENY,
        RbacAction::Log => LOG,
    }
}

impl Spelled for RbacPolicy {
    ghost use Rattle.envoy_types.specs.RbacForms.{policy_written};

    ghost written = { policy_written };

    #[tactic(auto, unfolding(envoy_types::specs::RbacForms::policy_written))]
    fn to_value(&self, alloc: Global) -> Result<Value, Memory> {
        let permissions = tree_list_value(alloc, &self.permissions)?;
        let principals = tree_list_value(alloc, &self.principals)?;
        let mut fields = Fields::new(alloc);
        fields.put(alloc, PERMISSIONS, permissions)?;
        fields.put(alloc, PRINCIPALS, principals)?;
        Ok(fields.into_value())
    }
}

impl Named for RbacPolicy {
    ghost name_of = { λ policy. policy.name };

    fn name(&self) -> &str {
        self.name.as_str()
    }
}
