// Server names by string forms.
ghost use Rattle.std.specs.Prelude.{◌≡◌, IfOk};
ghost use Rattle.mesh_policy.specs.Pattern.{HasNoEmptyText};
ghost use Rattle.str_match.specs.ServerName as meaning;
ghost use Rattle.str_match.specs.ServerName.{HoldsAs};

use crate::no_text::no_text;
use envoy_types::{PermissionLeaf, StringMatcher};
use mesh_policy::Pattern;
use mesh_text::Memory;
use mesh_tree::Tree;
use std::alloc::Global;

/// The connections that asked for a server name that a pattern holds for. A pattern without a text in it would hold for those that
/// asked for none.
#[tactic(auto, unfolding(crate::specs::ServerName::sni_tree))]
pub fn sni_tree(alloc: Global, p: &Pattern) -> Result<Tree<PermissionLeaf>, Memory>
    requires { HasNoEmptyText p.now }
    ensures shape { IfOk result (λ tree. tree ≡ meaning.sni_tree p.now) }
    ensures means { IfOk result (λ tree. HoldsAs tree p.now) }
{
    match p {
        Pattern::Present => asked_for_any(alloc),
        _ => Ok(Tree::leaf(PermissionLeaf::ServerName(StringMatcher::of(alloc, p, false)?))),
    }
}

fn asked_for_any(alloc: Global) -> Result<Tree<PermissionLeaf>, Memory>
    ensures { IfOk result (λ tree. tree ≡ meaning.asked_for_any) }
{
    Tree::not(
        alloc,
        Tree::leaf(PermissionLeaf::ServerName(no_text(alloc)?)),
    )
}
