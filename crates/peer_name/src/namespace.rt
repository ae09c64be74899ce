// Peers by their namespaces.
ghost use Rattle.std.specs.Prelude.{◌≡◌, [], ◌∷◌, string_bytes, IfOk, if◌then◌else◌};
ghost use Rattle.mesh_policy.specs.Attributes.{source_namespace};
ghost use Rattle.mesh_policy.specs.Template as template;
ghost use Rattle.mesh_tree.specs.Joined.{and_of};
ghost use Rattle.peer_name.specs.Holds.{HoldsAs};
ghost use Rattle.peer_name.specs.Namespace as meaning;

use crate::principal::{known_peer, named};
use envoy_types::{MatchKind, PrincipalLeaf};
use mesh_policy::Pattern;
use mesh_text::{List, Memory, Text};
use mesh_tree::Tree;
use std::alloc::Global;

/// The peers whose namespace a pattern holds for.
#[tactic(auto, unfolding(crate::specs::Namespace::namespace_tree), using(crate::proofs::NamespaceHolds::holds))]
pub fn namespace_tree(alloc: Global, p: &Pattern) -> Result<Tree<PrincipalLeaf>, Memory>
    ensures shape { IfOk result (λ tree. tree ≡ meaning.namespace_tree p.now) }
    ensures means { IfOk result (λ tree. HoldsAs tree p.now source_namespace) }
{
    match p {
        Pattern::Exact(text) => exact_tree(alloc, text),
        Pattern::Prefix(text) => prefix_tree(alloc, text),
        Pattern::Suffix(text) => suffix_tree(alloc, text),
        Pattern::Present => Ok(known_peer()),
    }
}

fn exact_tree(alloc: Global, namespace: &str) -> Result<Tree<PrincipalLeaf>, Memory>
    ensures { IfOk result (λ tree. tree ≡ (if template.has_slash namespace.now then meaning.nobody
        else meaning.has_part (meaning.namespace_segment namespace.now))) }
{
    if has_slash(namespace) {
        return Tree::never(alloc);
    }
    in_namespace(alloc, namespace)
}

fn prefix_tree(alloc: Global, front: &str) -> Result<Tree<PrincipalLeaf>, Memory>
    ensures { IfOk result (λ tree. tree ≡ (if template.has_slash front.now then meaning.nobody else meaning.prefix_tree front.now)) }
{
    if has_slash(front) {
        return Tree::never(alloc);
    }
    let begins = has_part(format!(in alloc; "/ns/{front}")?);
    if is_front_of_sa(front) {
        but_not_in(alloc, begins, "ns")
    } else {
        Ok(begins)
    }
}

fn suffix_tree(alloc: Global, end: &str) -> Result<Tree<PrincipalLeaf>, Memory>
    ensures { IfOk result (λ tree. tree ≡ (if template.has_slash end.now then meaning.nobody else meaning.suffix_tree end.now)) }
{
    if has_slash(end) {
        return Tree::never(alloc);
    }
    let ends = has_part(format!(in alloc; "{end}/sa/")?);
    if is_end_of_ns(end) {
        but_not_in(alloc, ends, "sa")
    } else {
        Ok(ends)
    }
}

fn is_front_of_sa(text: &str) -> bool
    ensures { result ≡ meaning.is_front_of_sa text.now }
{
    text == "s" || text == "sa"
}

fn is_end_of_ns(text: &str) -> bool
    ensures { result ≡ meaning.is_end_of_ns text.now }
{
    text == "s" || text == "ns"
}

fn has_slash(text: &str) -> bool
    ensures { result ≡ template.has_slash text.now }
{
    text.as_bytes().contains(&b'/')
}

fn has_part(text: String) -> Tree<PrincipalLeaf>
    ensures { result ≡ meaning.has_part (string_bytes text) }
{
    named(MatchKind::Contains, Text::from_string(text))
}

// the peers of a namespace
fn in_namespace(alloc: Global, namespace: &str) -> Result<Tree<PrincipalLeaf>, Memory>
    ensures { IfOk result (λ tree. tree ≡ meaning.has_part (meaning.namespace_segment namespace.now)) }
{
    Ok(has_part(format!(in alloc; "/ns/{namespace}/sa/")?))
}

// the peers of a tree, but for those of a namespace
fn but_not_in(
    alloc: Global,
    tree: Tree<PrincipalLeaf>,
    namespace: &str,
) -> Result<Tree<PrincipalLeaf>, Memory>
    ensures { IfOk result (λ t. t ≡ and_of (tree ∷ meaning.has_no_part (meaning.namespace_segment namespace.now) ∷ [])) }
{
    let mut parts = List::new(alloc);
    parts.push(tree)?;
    parts.push(Tree::not(alloc, in_namespace(alloc, namespace)?)?)?;
    Tree::and(alloc, parts)
}
