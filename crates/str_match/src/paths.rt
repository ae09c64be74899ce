// Paths by path values: templates and string forms.
ghost use Rattle.std.specs.Prelude.{◌≡◌, ◌≢◌, [], false, IfOk};
ghost use Rattle.envoy_types.specs.Strings.{matcher_of};
ghost use Rattle.str_match.specs.Paths as meaning;
ghost use Rattle.str_match.specs.Paths.{HoldsAsPath};

use crate::no_text::no_text;
use envoy_types::{PermissionLeaf, StringMatcher};
use mesh_policy::{Pattern, Template};
use mesh_text::Memory;
use mesh_tree::Tree;
use std::alloc::Global;

/// The requests whose path, without its query, a value of `paths` matches: a template where the value is one, and else a string
/// form.
#[tactic(auto, unfolding(crate::specs::Paths::path_tree))]
pub fn path_tree(alloc: Global, value: &str) -> Result<Tree<PermissionLeaf>, Memory>
    requires { value.now ≢ [] }
    ensures shape { IfOk result (λ tree. tree ≡ meaning.path_tree value.now) }
    ensures means { IfOk result (λ tree. HoldsAsPath tree value.now) }
{
    match Template::parse(alloc, value)? {
        Some(uri) => Ok(Tree::leaf(PermissionLeaf::UriTemplate(uri))),
        None => {
            let pattern = Pattern::parse(alloc, value)?;
            path_by(alloc, &pattern)
        }
    }
}

fn path_by(alloc: Global, p: &Pattern) -> Result<Tree<PermissionLeaf>, Memory>
    ensures { IfOk result (λ tree. tree ≡ meaning.path_by (matcher_of p.now false)) }
{
    match p {
        Pattern::Present => {
            let empty = Tree::leaf(PermissionLeaf::UrlPath(no_text(alloc)?));
            Tree::not(alloc, empty)
        }
        _ => Ok(Tree::leaf(PermissionLeaf::UrlPath(StringMatcher::of(alloc, p, false)?))),
    }
}
