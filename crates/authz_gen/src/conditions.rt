// The conditions of a rule: those on what is asked for as permissions, those on who asks as principals.
ghost use Rattle.std.specs.Prelude.{◌≡◌, ◌≢◌, ◌++◌, All, [], IfOk, IsTrue, OnOk, ⊤};
ghost use Rattle.mesh_text.specs.Token.{is_token};
ghost use Rattle.mesh_policy.specs.AcceptedRules.{AcceptedCondition, is_text_key};
ghost use Rattle.mesh_policy.specs.declared.condition.Condition.TheVariants as condition;
ghost use Rattle.authz_gen.specs.Conditions as meaning;

use crate::fields::{Field, push_both_lists};
use crate::operations::Ports;
use crate::sources::{Namespaces, Principals, RemoteBlocks, SourceBlocks};
use envoy_types::{PermissionLeaf, PrincipalLeaf};
use mesh_net::Cidr;
use mesh_policy::{BlockKey, Condition, Pattern, TextKey};
use mesh_text::{List, Memory, Text};
use mesh_tree::Tree;
use std::alloc::Global;
use str_match::{header_tree, sni_tree};

// ---- what is asked for

// Server names, of which one is asked for.
struct ServerNames;

impl Field for ServerNames {
    type Value = Text;

    type Leaf = PermissionLeaf;

    ghost accepted = { λ _ value. value ≢ [] };

    ghost tree = { λ _. meaning.server_name_of };

    fn make(&self, alloc: Global, value: &Text) -> Result<Tree<PermissionLeaf>, Memory> {
        let pattern = Pattern::parse(alloc, value)?;
        sni_tree(alloc, &pattern)
    }
}

// Blocks, in one of which the destination's address is.
struct DestinationBlocks;

impl Field for DestinationBlocks {
    type Value = Cidr;

    type Leaf = PermissionLeaf;

    ghost accepted = { λ _ _. ⊤ };

    ghost tree = { λ _. meaning.destination_block };

    fn make(&self, _alloc: Global, block: &Cidr) -> Result<Tree<PermissionLeaf>, Memory> {
        Ok(Tree::leaf(PermissionLeaf::DestinationIp(*block)))
    }
}

// Adds the permission of a condition on the server name, the destination's address or its port.
#[tactic(auto, unfolding(crate::specs::Conditions::permission_of))]
pub fn push_permission(
    alloc: Global,
    parts: &mut List<Tree<PermissionLeaf>>,
    condition: &Condition,
) -> Result<(), Memory>
    requires { AcceptedCondition condition.now }
    ensures { OnOk result (parts.new ≡ parts.old ++ meaning.permission_of condition.now) }
{
    match condition {
        Condition::Words {
            key,
            values,
            not_values,
        } => push_asked_words(alloc, parts, key, values, not_values),
        Condition::Blocks {
            key,
            values,
            not_values,
        } => push_asked_blocks(alloc, parts, *key, values, not_values),
        Condition::Ports { values, not_values } => {
            push_both_lists(alloc, &Ports, parts, values, not_values)
        }
    }
}

#[tactic(auto, unfolding(crate::specs::Conditions::permission_of))]
fn push_asked_words(
    alloc: Global,
    parts: &mut List<Tree<PermissionLeaf>>,
    key: &TextKey,
    values: &[Text],
    not_values: &[Text],
) -> Result<(), Memory>
    requires values { All (λ value. value ≢ []) values.now }
    requires not_values { All (λ value. value ≢ []) not_values.now }
    ensures { OnOk result (parts.new
        ≡ parts.old ++ meaning.permission_of (condition.Words key.now values.now not_values.now)) }
{
    match key {
        TextKey::Sni => push_both_lists(alloc, &ServerNames, parts, values, not_values),
        TextKey::SourcePrincipal
        | TextKey::SourceNamespace
        | TextKey::Header(_)
        | TextKey::AuthPrincipal
        | TextKey::Audiences
        | TextKey::Presenter
        | TextKey::Claim(_) => Ok(()),
    }
}

#[tactic(auto, unfolding(crate::specs::Conditions::permission_of))]
fn push_asked_blocks(
    alloc: Global,
    parts: &mut List<Tree<PermissionLeaf>>,
    key: BlockKey,
    values: &[Cidr],
    not_values: &[Cidr],
) -> Result<(), Memory>
    ensures { OnOk result (parts.new ≡ parts.old ++ meaning.permission_of (condition.Blocks key values.now not_values.now)) }
{
    match key {
        BlockKey::DestinationIp => {
            push_both_lists(alloc, &DestinationBlocks, parts, values, not_values)
        }
        BlockKey::SourceIp | BlockKey::RemoteIp => Ok(()),
    }
}

// ---- who asks

// Headers of one name, of which the first has one of the values.
#[derive(Drop)]
struct Headers<'a> {
    name: &'a str,
}

impl<'a> Field for Headers<'a> {
    type Value = Text;

    type Leaf = PrincipalLeaf;

    ghost accepted = { λ field value. IsTrue (is_token field.name.now) × (value ≢ []) };

    ghost tree = { λ field. meaning.header_of field.name.now };

    fn make(&self, alloc: Global, value: &Text) -> Result<Tree<PrincipalLeaf>, Memory> {
        let pattern = Pattern::parse(alloc, value)?;
        header_tree(alloc, self.name, &pattern)
    }
}

// Adds the principal of a condition on the peer's name, the source's addresses or a header.
#[tactic(auto, unfolding(crate::specs::Conditions::principal_by))]
pub fn push_principal(
    alloc: Global,
    parts: &mut List<Tree<PrincipalLeaf>>,
    condition: &Condition,
) -> Result<(), Memory>
    requires { AcceptedCondition condition.now }
    ensures { OnOk result (parts.new ≡ parts.old ++ meaning.principal_by condition.now) }
{
    match condition {
        Condition::Words {
            key,
            values,
            not_values,
        } => push_peer_words(alloc, parts, key, values, not_values),
        Condition::Blocks {
            key,
            values,
            not_values,
        } => push_addresses(alloc, parts, *key, values, not_values),
        Condition::Ports { .. } => Ok(()),
    }
}

#[tactic(auto, unfolding(crate::specs::Conditions::principal_by))]
fn push_peer_words(
    alloc: Global,
    parts: &mut List<Tree<PrincipalLeaf>>,
    key: &TextKey,
    values: &[Text],
    not_values: &[Text],
) -> Result<(), Memory>
    requires key { IsTrue (is_text_key key.now) }
    requires values { All (λ value. value ≢ []) values.now }
    requires not_values { All (λ value. value ≢ []) not_values.now }
    ensures { OnOk result (parts.new
        ≡ parts.old ++ meaning.principal_by (condition.Words key.now values.now not_values.now)) }
{
    match key {
        TextKey::SourcePrincipal => {
            push_both_lists(alloc, &Principals, parts, values, not_values)
        }
        TextKey::SourceNamespace => {
            push_both_lists(alloc, &Namespaces, parts, values, not_values)
        }
        TextKey::Header(name) => {
            push_both_lists(
                alloc,
                &Headers {
                    name: name.as_str(),
                },
                parts,
                values,
                not_values,
            )
        }
        TextKey::Sni
        | TextKey::AuthPrincipal
        | TextKey::Audiences
        | TextKey::Presenter
        | TextKey::Claim(_) => Ok(()),
    }
}

#[tactic(auto, unfolding(crate::specs::Conditions::principal_by))]
fn push_addresses(
    alloc: Global,
    parts: &mut List<Tree<PrincipalLeaf>>,
    key: BlockKey,
    values: &[Cidr],
    not_values: &[Cidr],
) -> Result<(), Memory>
    ensures { OnOk result (parts.new ≡ parts.old ++ meaning.principal_by (condition.Blocks key values.now not_values.now)) }
{
    match key {
        BlockKey::SourceIp => { push_both_lists(alloc, &SourceBlocks, parts, values, not_values) }
        BlockKey::RemoteIp => { push_both_lists(alloc, &RemoteBlocks, parts, values, not_values) }
        BlockKey::DestinationIp => Ok(()),
    }
}
