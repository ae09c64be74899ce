// Hosts, methods and headers by string forms.
ghost use Rattle.std.specs.Prelude.{◌≡◌, Bool, IfOk, IsTrue};
ghost use Rattle.mesh_text.specs.Token.{is_token};
ghost use Rattle.envoy_types.specs.Strings.{matcher_of};
ghost use Rattle.envoy_types.specs.declared.headers.HeaderMatch.{HeaderMatch};
ghost use Rattle.envoy_types.specs.declared.permission.PermissionLeaf.TheVariants as asked;
ghost use Rattle.envoy_types.specs.declared.principal.PrincipalLeaf.TheVariants as asking;
ghost use Rattle.str_match.specs.Headers as meaning;
ghost use Rattle.str_match.specs.Headers.{HoldsAsHeader, HoldsAsHost, HoldsAsMethod};

use crate::no_text::no_text;
use envoy_types::{
    AUTHORITY_HEADER, HeaderMatch, HeaderTest, METHOD_HEADER, PermissionLeaf, PrincipalLeaf,
    StringMatcher,
};
use mesh_policy::Pattern;
use mesh_text::{List, Memory, Text};
use mesh_tree::Tree;
use std::alloc::Global;

/// The requests whose host (the authority, with a port as it was sent) a pattern holds for, without regard to ASCII case. A
/// request without an authority has none.
#[tactic(auto, unfolding(crate::specs::Headers::host_tree))]
pub fn host_tree(alloc: Global, p: &Pattern) -> Result<Tree<PermissionLeaf>, Memory>
    ensures shape { IfOk result (λ tree. tree ≡ meaning.host_tree p.now) }
    ensures means { IfOk result (λ tree. HoldsAsHost tree p.now) }
{
    header_by::<PermissionLeaf>(alloc, AUTHORITY_HEADER, p, true)
}

/// The requests whose method a pattern holds for.
#[tactic(auto, unfolding(crate::specs::Headers::method_tree))]
pub fn method_tree(alloc: Global, p: &Pattern) -> Result<Tree<PermissionLeaf>, Memory>
    ensures shape { IfOk result (λ tree. tree ≡ meaning.method_tree p.now) }
    ensures means { IfOk result (λ tree. HoldsAsMethod tree p.now) }
{
    header_by::<PermissionLeaf>(alloc, METHOD_HEADER, p, false)
}

/// The requests with a header of this name, for whose first value a pattern holds. The name is a token (RFC 9110, section 5.6.2),
/// and so none of the pseudo-headers.
#[tactic(auto, unfolding(crate::specs::Headers::header_tree))]
pub fn header_tree(alloc: Global, name: &str, p: &Pattern) -> Result<Tree<PrincipalLeaf>, Memory>
    requires { IsTrue (is_token name.now) }
    ensures shape { IfOk result (λ tree. tree ≡ meaning.header_tree name.now p.now) }
    ensures means { IfOk result (λ tree. HoldsAsHeader tree name.now p.now) }
{
    header_by::<PrincipalLeaf>(alloc, name, p, false)
}

// ---- trees of one header

// A leaf that is a test of a header.
trait HeaderLeaf: Drop {
    ghost leaf: { HeaderMatch → Self };

    fn of_header(header: HeaderMatch) -> Self
        ensures { result ≡ leaf header };
}

impl HeaderLeaf for PermissionLeaf {
    ghost leaf = { asked.Header };

    fn of_header(header: HeaderMatch) -> PermissionLeaf {
        PermissionLeaf::Header(header)
    }
}

impl HeaderLeaf for PrincipalLeaf {
    ghost leaf = { asking.Header };

    fn of_header(header: HeaderMatch) -> PrincipalLeaf {
        PrincipalLeaf::Header(header)
    }
}

fn header_by<L: HeaderLeaf>(
    alloc: Global,
    name: &str,
    p: &Pattern,
    fold: bool,
) -> Result<Tree<L>, Memory>
    ensures { IfOk result (λ tree. tree ≡ meaning.header_by L.leaf name.now (matcher_of p.now fold)) }
{
    match p {
        Pattern::Present => header_filled::<L>(alloc, name),
        _ => {
            let matcher = StringMatcher::of(alloc, p, fold)?;
            header_test::<L>(alloc, name, HeaderTest::Words(matcher))
        }
    }
}

fn header_filled<L: HeaderLeaf>(alloc: Global, name: &str) -> Result<Tree<L>, Memory>
    ensures { IfOk result (λ tree. tree ≡ meaning.header_filled L.leaf name.now) }
{
    let empty = header_test::<L>(alloc, name, HeaderTest::Words(no_text(alloc)?))?;
    let mut parts = List::with_room(alloc, 2)?;
    parts.push(header_test::<L>(alloc, name, HeaderTest::Present)?)?;
    parts.push(Tree::not(alloc, empty)?)?;
    Tree::and(alloc, parts)
}

fn header_test<L: HeaderLeaf>(
    alloc: Global,
    name: &str,
    test: HeaderTest,
) -> Result<Tree<L>, Memory>
    ensures { IfOk result (λ tree. tree ≡ meaning.header_test L.leaf name.now test) }
{
    let name = Text::of(alloc, name)?;
    Ok(Tree::leaf(L::of_header(HeaderMatch { name, test })))
}
