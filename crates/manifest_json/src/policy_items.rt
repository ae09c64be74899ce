// The items that are policies: the metadata of each kind, and then its `spec`.
ghost use Rattle.serde_json.specs.View.{view};
ghost use Rattle.mesh_doc.specs.Faults.{Reads};
ghost use Rattle.manifest_json.specs.PolicyItems as policies;

use crate::items::{METADATA, SPEC};
use crate::metadata::{AuthorizationMeta, PeerMeta, PlainMeta};
use mesh_doc::{DocError, Spot, field, required};
use mesh_policy::{AuthorizationPolicy, PeerAuthentication, RequestAuthentication};
use policy_json::{read_authorization_at, read_peer_at, read_request_at};
use serde_json::Value;
use std::alloc::Global;

/// The AuthorizationPolicy that the item at `at` means, or its first fault: those of its metadata, and then those
/// of its `spec`.
#[tactic(auto, unfolding(crate::specs::PolicyItems::authorization_item_faults, crate::specs::PolicyItems::authorization_item_in, mesh_doc::specs::Fields::or_empty, mesh_doc::specs::Fields::or_empty_in))]
pub(crate) fn read_authorization_item(
    alloc: Global,
    item: &Value,
    at: &Spot,
) -> Result<AuthorizationPolicy, DocError>
    ensures { Reads result
        (policies.authorization_item_faults (view item.now) at.now)
        (policies.authorization_item_in (view item.now)) }
{
    at.object(alloc, item)?;
    let names = required::<AuthorizationMeta>(alloc, item, METADATA, at)?;
    read_authorization_at(
        alloc,
        names.name,
        names.namespace,
        field(item, SPEC),
        &Spot::key(at, SPEC),
    )
}

/// The PeerAuthentication that the item at `at` means, or its first fault: those of its metadata, and then those
/// of its `spec`.
#[tactic(auto, unfolding(crate::specs::PolicyItems::peer_item_faults, crate::specs::PolicyItems::peer_item_in, mesh_doc::specs::Fields::or_empty, mesh_doc::specs::Fields::or_empty_in))]
pub(crate) fn read_peer_item(
    alloc: Global,
    item: &Value,
    at: &Spot,
) -> Result<PeerAuthentication, DocError>
    ensures { Reads result
        (policies.peer_item_faults (view item.now) at.now)
        (policies.peer_item_in (view item.now)) }
{
    at.object(alloc, item)?;
    let metadata = required::<PeerMeta>(alloc, item, METADATA, at)?;
    read_peer_at(
        alloc,
        metadata.names.name,
        metadata.names.namespace,
        metadata.age,
        field(item, SPEC),
        &Spot::key(at, SPEC),
    )
}

/// The RequestAuthentication that the item at `at` means, or its first fault: those of its metadata, and then
/// those of its `spec`.
#[tactic(auto, unfolding(crate::specs::PolicyItems::request_item_faults, crate::specs::PolicyItems::request_item_in, mesh_doc::specs::Fields::or_empty, mesh_doc::specs::Fields::or_empty_in))]
pub(crate) fn read_request_item(
    alloc: Global,
    item: &Value,
    at: &Spot,
) -> Result<RequestAuthentication, DocError>
    ensures { Reads result
        (policies.request_item_faults (view item.now) at.now)
        (policies.request_item_in (view item.now)) }
{
    at.object(alloc, item)?;
    let names = required::<PlainMeta>(alloc, item, METADATA, at)?;
    read_request_at(
        alloc,
        names.name,
        names.namespace,
        field(item, SPEC),
        &Spot::key(at, SPEC),
    )
}
