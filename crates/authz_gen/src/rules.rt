// A rule as a permission and a principal, as a port reads it.
ghost use Rattle.std.specs.Prelude.{◌≡◌, ◌++◌, All, flat_map, IfOk, OnOk};
ghost use Rattle.mesh_policy.specs.AcceptedRules.{AcceptedCondition, AcceptedRule};
ghost use Rattle.authz_gen.specs.Conditions.{permission_of, principal_by};
ghost use Rattle.authz_gen.specs.Policies.{rule_on};
ghost use Rattle.authz_gen.specs.Rules as meaning;

use crate::conditions::{push_permission, push_principal};
use crate::fields::trees_of;
use crate::lists::{all_of, push_one_of};
use crate::needs_http::condition_needs_http;
use crate::operations::Operations;
use crate::sources::Sources;
use envoy_types::{PermissionLeaf, PrincipalLeaf};
use mesh_policy::{Condition, Protocol, Rule};
use mesh_text::{List, Memory};
use mesh_tree::Tree;
use std::alloc::Global;

// ---- what is asked for

// One of the operations, where there are any, and the conditions on what is asked for.
#[tactic(auto, using(crate::proofs::OnPort::permission_made))]
pub fn permission_tree(
    alloc: Global,
    rule: &Rule,
    protocol: Protocol,
) -> Result<Tree<PermissionLeaf>, Memory>
    requires { AcceptedRule rule.now }
    ensures { IfOk result (λ t. t ≡ meaning.permission_tree (rule_on protocol rule.now)) }
{
    let operations = trees_of(alloc, &Operations { protocol }, &rule.operations)?;
    let mut parts = List::new(alloc);
    push_one_of(alloc, &mut parts, operations)?;
    push_permissions(alloc, &mut parts, &rule.conditions, protocol)?;
    all_of(alloc, parts)
}

fn push_permissions(
    alloc: Global,
    parts: &mut List<Tree<PermissionLeaf>>,
    conditions: &[Condition],
    protocol: Protocol,
) -> Result<(), Memory>
    requires { All AcceptedCondition conditions.now }
    ensures { OnOk result (parts.new ≡ parts.old ++ flat_map (meaning.of_tested permission_of protocol) conditions.now) }
{
    for condition in conditions {
        push_tested_permission(alloc, parts, condition, protocol)?;
    }
    Ok(())
}

fn push_tested_permission(
    alloc: Global,
    parts: &mut List<Tree<PermissionLeaf>>,
    condition: &Condition,
    protocol: Protocol,
) -> Result<(), Memory>
    requires { AcceptedCondition condition.now }
    ensures { OnOk result (parts.new ≡ parts.old ++ meaning.of_tested permission_of protocol condition.now) }
{
    if is_tested(protocol, condition) {
        return push_permission(alloc, parts, condition);
    }
    Ok(())
}

// ---- who asks

// One of the sources, where there are any, and the conditions on who asks.
#[tactic(auto, using(crate::proofs::OnPort::principal_made))]
pub fn principal_tree(
    alloc: Global,
    rule: &Rule,
    protocol: Protocol,
) -> Result<Tree<PrincipalLeaf>, Memory>
    requires { AcceptedRule rule.now }
    ensures { IfOk result (λ t. t ≡ meaning.principal_tree (rule_on protocol rule.now)) }
{
    let sources = trees_of(alloc, &Sources, &rule.sources)?;
    let mut parts = List::new(alloc);
    push_one_of(alloc, &mut parts, sources)?;
    push_principals(alloc, &mut parts, &rule.conditions, protocol)?;
    all_of(alloc, parts)
}

fn push_principals(
    alloc: Global,
    parts: &mut List<Tree<PrincipalLeaf>>,
    conditions: &[Condition],
    protocol: Protocol,
) -> Result<(), Memory>
    requires { All AcceptedCondition conditions.now }
    ensures { OnOk result (parts.new ≡ parts.old ++ flat_map (meaning.of_tested principal_by protocol) conditions.now) }
{
    for condition in conditions {
        push_tested_principal(alloc, parts, condition, protocol)?;
    }
    Ok(())
}

fn push_tested_principal(
    alloc: Global,
    parts: &mut List<Tree<PrincipalLeaf>>,
    condition: &Condition,
    protocol: Protocol,
) -> Result<(), Memory>
    requires { AcceptedCondition condition.now }
    ensures { OnOk result (parts.new ≡ parts.old ++ meaning.of_tested principal_by protocol condition.now) }
{
    if is_tested(protocol, condition) {
        return push_principal(alloc, parts, condition);
    }
    Ok(())
}

// ---- conditions on a port

// A TCP port tests no condition on what only a request has.
fn is_tested(protocol: Protocol, condition: &Condition) -> bool
    ensures { result ≡ meaning.is_tested protocol condition.now }
{
    match protocol {
        Protocol::Http => true,
        Protocol::Tcp => !condition_needs_http(condition),
    }
}
