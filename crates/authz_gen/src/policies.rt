// The filter of role-based access control that enforces the policies of one action on a port.
ghost use Rattle.std.specs.Prelude.{◌≡◌, ◌++◌, ℕ, All, [], false, flat_map, IfOk, IsTrue, OnOk};
ghost use Rattle.mesh_policy.specs.AcceptedRules.{AcceptedPolicy, AcceptedRule};
ghost use Rattle.mesh_policy.specs.Explanation as explanation;
ghost use Rattle.mesh_policy.specs.Sizes.{is_over_limit, size_of};
ghost use Rattle.mesh_policy.specs.declared.service.Protocol.TheVariants.{Http, Tcp};
ghost use Rattle.envoy_types.specs.RbacForms.{rbac_is_printable};
ghost use Rattle.authz_gen.specs.Policies as meaning;
ghost use Rattle.authz_gen.specs.Policies.{AreToldOn, ArePoliciesOf, DecidesOn, RulesHoldAsPolicies};

use crate::in_order::in_order;
use crate::needs_http::needs_http;
use crate::rules::{permission_tree, principal_tree};
use envoy_types::{Rbac, RbacAction, RbacPolicy, RbacRules};
use mesh_policy::{Action, AuthorizationPolicy, Protocol, Rule};
use mesh_text::{List, Memory, Text};
use std::alloc::Global;

/// The filter of the policies of an action on a TCP port. It has one policy a rule, under the rule's name, which holds exactly
/// where the rule does; a rule of ALLOW that asks for something that only a request has never holds there, and has none. Of
/// policies that keep the limits of a workload it can be written as JSON.
pub fn tcp_rbac(
    alloc: Global,
    policies: &List<AuthorizationPolicy>,
    action: Action,
) -> Result<Rbac, Memory>
    requires { ArePoliciesOf action policies.now }
    ensures shape { IfOk result (λ filter. filter ≡ meaning.tcp_rbac action policies.now) }
    ensures meaning { IfOk result (λ filter. DecidesOn Tcp filter action policies.now) }
    ensures rules { IfOk result (λ filter. RulesHoldAsPolicies Tcp filter policies.now) }
    ensures printable { IfOk result (λ filter. is_over_limit (size_of policies.now []) ≡ false → IsTrue (rbac_is_printable filter)) }
{
    rbac_on(alloc, policies, action, Protocol::Tcp)
}

/// The filter of the policies of an action on an HTTP port, where no rule asks for the token of a request. It has one policy for
/// each rule, under the rule's name, which holds exactly where the rule does of a request that is seen. Of policies that keep the
/// limits of a workload it can be written as JSON.
pub fn http_rbac(
    alloc: Global,
    policies: &List<AuthorizationPolicy>,
    action: Action,
) -> Result<Rbac, Memory>
    requires policies { ArePoliciesOf action policies.now }
    requires told { AreToldOn Http policies.now }
    ensures shape { IfOk result (λ filter. filter ≡ meaning.http_rbac action policies.now) }
    ensures meaning { IfOk result (λ filter. DecidesOn Http filter action policies.now) }
    ensures rules { IfOk result (λ filter. RulesHoldAsPolicies Http filter policies.now) }
    ensures printable { IfOk result (λ filter. is_over_limit (size_of policies.now []) ≡ false → IsTrue (rbac_is_printable filter)) }
{
    rbac_on(alloc, policies, action, Protocol::Http)
}

#[tactic(auto, unfolding(crate::specs::Policies::rbac_on))]
fn rbac_on(
    alloc: Global,
    policies: &List<AuthorizationPolicy>,
    action: Action,
    protocol: Protocol,
) -> Result<Rbac, Memory>
    requires policies { ArePoliciesOf action policies.now }
    requires told { AreToldOn protocol policies.now }
    ensures shape { IfOk result (λ filter. filter ≡ meaning.rbac_on protocol action policies.now) }
    ensures meaning { IfOk result (λ filter. DecidesOn protocol filter action policies.now) }
    ensures rules { IfOk result (λ filter. RulesHoldAsPolicies protocol filter policies.now) }
    ensures printable { IfOk result (λ filter. is_over_limit (size_of policies.now []) ≡ false → IsTrue (rbac_is_printable filter)) }
{
    let policies = policies_on(alloc, policies, protocol)?;
    let rules = RbacRules {
        action: rbac_action(action),
        policies,
    };
    Ok(Rbac {
        rules: Some(rules),
        shadow: None,
        shadow_prefix: Text::of(alloc, "")?,
    })
}

fn rbac_action(action: Action) -> RbacAction
    ensures { result ≡ meaning.rbac_action action }
{
    match action {
        Action::Allow => RbacAction::Allow,
        Action::Deny => RbacAction::Deny,
        Action::Audit => RbacAction::Log,
        Action::Custom => RbacAction::Deny,
    }
}

#[tactic(auto, unfolding(crate::specs::Policies::policies_on))]
fn policies_on(
    alloc: Global,
    policies: &[AuthorizationPolicy],
    protocol: Protocol,
) -> Result<List<RbacPolicy>, Memory>
    requires { All AcceptedPolicy policies.now }
    ensures { IfOk result (λ ps. ps ≡ meaning.policies_on protocol policies.now) }
{
    let found = rule_policies(alloc, policies, protocol)?;
    in_order(found)
}

// One policy for each rule that has one, in the order in which they stand.
fn rule_policies(
    alloc: Global,
    policies: &[AuthorizationPolicy],
    protocol: Protocol,
) -> Result<List<RbacPolicy>, Memory>
    requires { All AcceptedPolicy policies.now }
    ensures { IfOk result (λ ps. ps ≡ flat_map (meaning.rule_policies protocol) policies.now) }
{
    let mut found = List::new(alloc);
    for policy in policies {
        push_rules(alloc, &mut found, policy, protocol)?;
    }
    Ok(found)
}

fn push_rules(
    alloc: Global,
    found: &mut List<RbacPolicy>,
    policy: &AuthorizationPolicy,
    protocol: Protocol,
) -> Result<(), Memory>
    requires { AcceptedPolicy policy.now }
    ensures { OnOk result (found.new ≡ found.old ++ meaning.rule_policies protocol policy.now) }
{
    for (index, rule) in policy.rules.iter().enumerate() {
        if has_policy(protocol, policy.action, rule) {
            found.push(rule_policy(alloc, policy, index, rule, protocol)?)?;
        }
    }
    Ok(())
}

// On a TCP port a rule of ALLOW that asks for something that only a request has never holds.
fn has_policy(protocol: Protocol, action: Action, rule: &Rule) -> bool
    ensures { (index : ℕ) → result ≡ meaning.has_policy protocol action (index, rule.now) }
{
    match protocol {
        Protocol::Http => true,
        Protocol::Tcp => !(action == Action::Allow && needs_http(rule)),
    }
}

#[tactic(auto, unfolding(crate::specs::Policies::rule_policy))]
fn rule_policy(
    alloc: Global,
    policy: &AuthorizationPolicy,
    index: usize,
    rule: &Rule,
    protocol: Protocol,
) -> Result<RbacPolicy, Memory>
    requires { AcceptedRule rule.now }
    ensures { IfOk result (λ p. p ≡ meaning.rule_policy protocol policy.now (index, rule.now)) }
{
    let name = rule_name(alloc, policy, index)?;
    let mut permissions = List::new(alloc);
    permissions.push(permission_tree(alloc, rule, protocol)?)?;
    let mut principals = List::new(alloc);
    principals.push(principal_tree(alloc, rule, protocol)?)?;
    Ok(RbacPolicy {
        name,
        permissions,
        principals,
    })
}

fn rule_name(alloc: Global, policy: &AuthorizationPolicy, index: usize) -> Result<Text, Memory>
    ensures { IfOk result (λ n. n ≡ explanation.rule_name policy.now index) }
{
    let front = action_front(policy.action);
    let namespace = policy.namespace.as_str();
    let name = policy.name.as_str();
    let text = format!(in alloc; "{front}ns[{namespace}]-policy[{name}]-rule[{index}]")?;
    Ok(Text::from_string(text))
}

fn action_front(action: Action) -> &'static str
    ensures { result.now ≡ explanation.action_front action }
{
    match action {
        Action::Allow => "",
        Action::Deny => "",
        Action::Audit => "",
        Action::Custom => "istio-ext-authz-",
    }
}
