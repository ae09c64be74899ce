// Who asks, as a principal.
ghost use Rattle.std.specs.Prelude.{◌≡◌, ◌≢◌, ◌++◌, [], map, IfOk, OnOk, ⊤};
ghost use Rattle.mesh_policy.specs.AcceptedRules.{AcceptedSource};
ghost use Rattle.authz_gen.specs.Lists.{field_of};
ghost use Rattle.authz_gen.specs.Sources as meaning;

use crate::fields::{Field, push_field};
use crate::lists::all_of;
use envoy_types::PrincipalLeaf;
use mesh_net::Cidr;
use mesh_policy::{Pattern, SourceSpec};
use mesh_text::{List, Memory, Text};
use mesh_tree::Tree;
use peer_name::{namespace_tree, principal_tree};
use std::alloc::Global;

// ---- sources

// The sources of a rule.
pub struct Sources;

impl Field for Sources {
    type Value = SourceSpec;

    type Leaf = PrincipalLeaf;

    ghost accepted = { λ _. AcceptedSource };

    ghost tree = { λ _. meaning.source_tree };

    fn make(&self, alloc: Global, source: &SourceSpec) -> Result<Tree<PrincipalLeaf>, Memory> {
        source_tree(alloc, source)
    }
}

// The fields of a source but for those on request principals.
#[tactic(auto, unfolding(crate::specs::Sources::source_tree))]
fn source_tree(alloc: Global, source: &SourceSpec) -> Result<Tree<PrincipalLeaf>, Memory>
    requires { AcceptedSource source.now }
    ensures { IfOk result (λ t. t ≡ meaning.source_tree source.now) }
{
    let mut parts = List::new(alloc);
    push_names(alloc, &mut parts, source)?;
    push_blocks(alloc, &mut parts, source)?;
    all_of(alloc, parts)
}

// Adds the fields of a source that ask for the peer's name.
fn push_names(
    alloc: Global,
    parts: &mut List<Tree<PrincipalLeaf>>,
    source: &SourceSpec,
) -> Result<(), Memory>
    requires { AcceptedSource source.now }
    ensures { OnOk result (parts.new ≡ parts.old
        ++ field_of (map meaning.principal_of source.now.principals) (map meaning.principal_of source.now.not_principals)
        ++ field_of (map meaning.namespace_of source.now.namespaces) (map meaning.namespace_of source.now.not_namespaces)) }
{
    push_field(
        alloc,
        &Principals,
        parts,
        &source.principals,
        &source.not_principals,
    )?;
    push_field(
        alloc,
        &Namespaces,
        parts,
        &source.namespaces,
        &source.not_namespaces,
    )
}

// Adds those that ask for addresses.
fn push_blocks(
    alloc: Global,
    parts: &mut List<Tree<PrincipalLeaf>>,
    source: &SourceSpec,
) -> Result<(), Memory>
    ensures { OnOk result (parts.new ≡ parts.old
        ++ field_of (map meaning.source_block source.now.ip_blocks) (map meaning.source_block source.now.not_ip_blocks)
        ++ field_of (map meaning.remote_block source.now.remote_ip_blocks) (map meaning.remote_block source.now.not_remote_ip_blocks)) }
{
    push_field(
        alloc,
        &SourceBlocks,
        parts,
        &source.ip_blocks,
        &source.not_ip_blocks,
    )?;
    push_field(
        alloc,
        &RemoteBlocks,
        parts,
        &source.remote_ip_blocks,
        &source.not_remote_ip_blocks,
    )
}

// ---- the peer's name

// Principals, of which one is the peer's.
pub struct Principals;

impl Field for Principals {
    type Value = Text;

    type Leaf = PrincipalLeaf;

    ghost accepted = { λ _ value. value ≢ [] };

    ghost tree = { λ _. meaning.principal_of };

    fn make(&self, alloc: Global, value: &Text) -> Result<Tree<PrincipalLeaf>, Memory> {
        let pattern = Pattern::parse(alloc, value)?;
        principal_tree(alloc, &pattern)
    }
}

// Namespaces, of which one is the peer's.
pub struct Namespaces;

impl Field for Namespaces {
    type Value = Text;

    type Leaf = PrincipalLeaf;

    ghost accepted = { λ _ value. value ≢ [] };

    ghost tree = { λ _. meaning.namespace_of };

    fn make(&self, alloc: Global, value: &Text) -> Result<Tree<PrincipalLeaf>, Memory> {
        let pattern = Pattern::parse(alloc, value)?;
        namespace_tree(alloc, &pattern)
    }
}

// ---- addresses

// Blocks, in one of which the connection comes from.
pub struct SourceBlocks;

impl Field for SourceBlocks {
    type Value = Cidr;

    type Leaf = PrincipalLeaf;

    ghost accepted = { λ _ _. ⊤ };

    ghost tree = { λ _. meaning.source_block };

    fn make(&self, _alloc: Global, block: &Cidr) -> Result<Tree<PrincipalLeaf>, Memory> {
        Ok(Tree::leaf(PrincipalLeaf::DirectRemoteIp(*block)))
    }
}

// Blocks, in one of which the client's own address is.
pub struct RemoteBlocks;

impl Field for RemoteBlocks {
    type Value = Cidr;

    type Leaf = PrincipalLeaf;

    ghost accepted = { λ _ _. ⊤ };

    ghost tree = { λ _. meaning.remote_block };

    fn make(&self, _alloc: Global, block: &Cidr) -> Result<Tree<PrincipalLeaf>, Memory> {
        Ok(Tree::leaf(PrincipalLeaf::RemoteIp(*block)))
    }
}
