// Peers by their principals.
ghost use Rattle.std.specs.Prelude.{◌≡◌, ◌++◌, ◌∷◌, IfOk, OnOk};
ghost use Rattle.std.specs.List.{flat_map};
ghost use Rattle.mesh_policy.specs.Attributes.{source_principal};
ghost use Rattle.mesh_policy.specs.PeerNames.{scheme};
ghost use Rattle.envoy_types.specs.declared.strings.MatchKind.TheVariants as MatchKind;
ghost use Rattle.peer_name.specs.Holds.{HoldsAs};
ghost use Rattle.peer_name.specs.Principal as meaning;

use envoy_types::{MatchKind, PrincipalLeaf, StringMatcher};
use mesh_policy::Pattern;
use mesh_text::{List, Memory, Text};
use mesh_tree::Tree;
use std::alloc::Global;

// what `spiffe://` ends with, shortest first
const SCHEME_ENDS: [&str; 9] = [
    "/",
    "//",
    "://",
    "e://",
    "fe://",
    "ffe://",
    "iffe://",
    "piffe://",
    "spiffe://",
];

/// The peers whose principal, that is the name without `spiffe://`, a pattern holds for.
#[tactic(auto, unfolding(crate::specs::Principal::principal_tree), using(crate::proofs::PrincipalHolds::holds))]
pub fn principal_tree(alloc: Global, p: &Pattern) -> Result<Tree<PrincipalLeaf>, Memory>
    ensures shape { IfOk result (λ tree. tree ≡ meaning.principal_tree p.now) }
    ensures means { IfOk result (λ tree. HoldsAs tree p.now source_principal) }
{
    match p {
        Pattern::Exact(text) => behind_scheme(alloc, MatchKind::Exact, text),
        Pattern::Prefix(text) => behind_scheme(alloc, MatchKind::Prefix, text),
        Pattern::Suffix(text) => suffix_tree(alloc, text),
        Pattern::Present => Ok(known_peer()),
    }
}

/// A peer whose name is known, whatever it is.
pub(crate) fn known_peer() -> Tree<PrincipalLeaf>
    ensures { result ≡ meaning.known_peer }
{
    Tree::leaf(PrincipalLeaf::Authenticated(None))
}

/// A peer by a text in its name.
pub(crate) fn named(kind: MatchKind, text: Text) -> Tree<PrincipalLeaf>
    ensures { result ≡ meaning.named kind text }
{
    let matcher = StringMatcher {
        kind,
        text,
        ignore_case: false,
    };
    Tree::leaf(PrincipalLeaf::Authenticated(Some(matcher)))
}

// a peer by a text that stands behind `spiffe://`
fn behind_scheme(alloc: Global, kind: MatchKind, text: &str) -> Result<Tree<PrincipalLeaf>, Memory>
    ensures { IfOk result (λ tree. tree ≡ meaning.named kind (scheme ++ text.now)) }
{
    let name = format!(in alloc; "spiffe://{text}")?;
    Ok(named(kind, Text::from_string(name)))
}

// any peer but the one of that principal
fn not_principal(alloc: Global, principal: &str) -> Result<Tree<PrincipalLeaf>, Memory>
    ensures { IfOk result (λ tree. tree ≡ meaning.not_named (scheme ++ principal.now)) }
{
    Tree::not(alloc, behind_scheme(alloc, MatchKind::Exact, principal)?)
}

// names that end with the suffix, but for those of principals that are shorter than it
#[tactic(auto, unfolding(crate::specs::Principal::suffix_tree))]
fn suffix_tree(alloc: Global, suffix: &str) -> Result<Tree<PrincipalLeaf>, Memory>
    ensures { IfOk result (λ tree. tree ≡ meaning.suffix_tree suffix.now) }
{
    Tree::and(alloc, suffix_parts(alloc, suffix)?)
}

fn suffix_parts(alloc: Global, suffix: &str) -> Result<List<Tree<PrincipalLeaf>>, Memory>
    ensures { IfOk result (λ parts. parts
        ≡ meaning.named MatchKind.Suffix suffix.now ∷ flat_map (meaning.all_but_shorter suffix.now) meaning.scheme_ends) }
{
    let mut parts = List::new(alloc);
    parts.push(named(MatchKind::Suffix, Text::of(alloc, suffix)?))?;
    for end in &SCHEME_ENDS {
        push_but_shorter(alloc, &mut parts, suffix, end)?;
    }
    Ok(parts)
}

// the peer that is left out by this end of `spiffe://`, if there is one
fn push_but_shorter(
    alloc: Global,
    parts: &mut List<Tree<PrincipalLeaf>>,
    suffix: &str,
    end: &str,
) -> Result<(), Memory>
    ensures { OnOk result (parts.new ≡ parts.old ++ meaning.all_but_shorter suffix.now end.now) }
{
    match suffix.strip_prefix(end) {
        None => Ok(()),
        Some(shorter) => {
            parts.push(not_principal(alloc, shorter)?)?;
            Ok(())
        }
    }
}
