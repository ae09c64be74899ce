// What the rules of role-based access control decide.
ghost use Rattle.std.specs.Prelude.{◌≡◌};
ghost use Rattle.std.specs.List.{list_any, position_from};
ghost use Rattle.mesh_tree.specs.Judge.{tree_holds};
ghost use Rattle.envoy_types.specs.Access as access;
ghost use Rattle.envoy_types.specs.Permission as permission;
ghost use Rattle.envoy_types.specs.Principal as principal;
ghost use Rattle.envoy_types.specs.State.{seen_of};

use envoy_types::{PermissionLeaf, PrincipalLeaf, RbacPolicy, RbacRules, State};
use mesh_policy::Case;
use mesh_tree::Tree;

/// The position of the first policy that holds, in byte order of names (Envoy reference, "Role Based Access Control (RBAC)
/// Filter"). A policy behind it is not looked at, and a policy's principals only where a permission holds.
pub fn effective(rules: &RbacRules, case: &Case, state: &State) -> Option<usize>
    ensures { result ≡ access.effective rules.now case.now (seen_of case.now state.now) }
{
    first_held(&rules.policies, case, state)
}

fn first_held(policies: &[RbacPolicy], case: &Case, state: &State) -> Option<usize>
    ensures { result ≡ position_from (λ policy. access.policy_holds policy case.now (seen_of case.now state.now)) 0 policies.now }
{
    policies
        .iter()
        .position(|policy| policy_holds(policy, case, state))
}

fn policy_holds(policy: &RbacPolicy, case: &Case, state: &State) -> bool
    ensures { result ≡ access.policy_holds policy.now case.now (seen_of case.now state.now) }
{
    one_permission(&policy.permissions, case, state)
        && one_principal(&policy.principals, case, state)
}

fn one_permission(permissions: &[Tree<PermissionLeaf>], case: &Case, state: &State) -> bool
    ensures { result ≡ list_any (tree_holds (λ leaf. permission.leaf_holds leaf case.now (seen_of case.now state.now))) permissions.now }
{
    permissions.iter().any(|tree| tree.judge(case, state))
}

fn one_principal(principals: &[Tree<PrincipalLeaf>], case: &Case, state: &State) -> bool
    ensures { result ≡ list_any (tree_holds (λ leaf. principal.leaf_holds leaf case.now (seen_of case.now state.now))) principals.now }
{
    principals.iter().any(|tree| tree.judge(case, state))
}
