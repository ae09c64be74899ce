// The filters of role-based access control, with trees for their permissions and principals.
use crate::permission::PermissionLeaf;
use crate::principal::PrincipalLeaf;
use mesh_text::{List, Text};
use mesh_tree::Tree;
use std::marker::Model;

/// A role-based access control filter (Envoy v3 API, `extensions.filters.http.rbac.v3.RBAC` and
/// `extensions.filters.network.rbac.v3.RBAC`).
#[derive(Debug, Drop, PartialEq, Eq)]
pub struct Rbac {
    /// Without rules it lets everything pass.
    pub rules: Option<RbacRules>,
    /// Rules that refuse nothing, and tell the name of the policy that holds.
    pub shadow: Option<RbacRules>,
    /// What stands in front of the metadata key under which they tell it.
    pub shadow_prefix: Text,
}

/// The rules of such a filter (`config.rbac.v3.RBAC`). Their policies stand in byte order of distinct names.
#[derive(Debug, Drop, PartialEq, Eq)]
pub struct RbacRules {
    pub action: RbacAction,
    pub policies: List<RbacPolicy>,
}

impl Model for RbacRules {
    ghost use Rattle.std.specs.Coded.{codes};
    ghost use Rattle.std.specs.Prelude.{IsTrue};
    ghost use Rattle.mesh_tree.specs.contracts.tree.Tree as tree;
    ghost use Rattle.envoy_types.specs.Access.{Rules};
    ghost use Rattle.envoy_types.specs.Order.{names_rise};
    ghost use Rattle.envoy_types.specs.contracts.permission.PermissionLeaf as permission;
    ghost use Rattle.envoy_types.specs.contracts.principal.PrincipalLeaf as principal;

    ghost Value = { Rules };

    ghost coded = { Prim.hlevel (codes, (tree.the_row permission.the_row).coded, (tree.the_row principal.the_row).coded) };

    ghost view = { λ r. record { action = r.action; policies = r.policies } };

    ghost invariant = { λ r. IsTrue (names_rise (λ policy. policy.name) r.policies) };

    ghost inverse = { λ r. record { action = r.action; policies = r.policies } };
}

/// What such rules do where a policy holds (`config.rbac.v3.RBAC.Action`).
#[derive(Clone, Copy, Debug, PartialEq, Eq)]
pub enum RbacAction {
    /// Refuse what no policy holds for.
    Allow,
    /// Refuse what a policy holds for.
    Deny,
    /// Mark what a policy holds for.
    Log,
}

/// A policy (`config.rbac.v3.Policy`): it holds where one permission and one principal do.
#[derive(Debug, Drop, PartialEq, Eq)]
pub struct RbacPolicy {
    pub name: Text,
    pub permissions: List<Tree<PermissionLeaf>>,
    pub principals: List<Tree<PrincipalLeaf>>,
}
