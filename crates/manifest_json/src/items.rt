// One item of a document, and the items behind it.
ghost use Rattle.std.specs.Prelude.{◌≡◌, Some, IfOk, IsTrue};
ghost use Rattle.serde_json.specs.View.{view};
ghost use Rattle.mesh_doc.specs.Faults.{Reads};
ghost use Rattle.manifest_json.specs.Items as items;

use crate::key::{ItemKey, Kind, note_item};
use crate::kind_table::kind_of;
use crate::mesh_config::read_mesh_item;
use crate::pod::read_pod;
use crate::policy_items::{read_authorization_item, read_peer_item, read_request_item};
use crate::seen::Seen;
use crate::service::read_service;
use mesh_doc::{AnyText, DocError, InTurn, Reason, Spot, required};
use mesh_policy::{
    AuthorizationPolicy, MeshConfig, PeerAuthentication, Pod, RequestAuthentication, Service,
};
use mesh_text::Memory;
use serde_json::Value;
use std::alloc::Global;

const API_VERSION: &str = "apiVersion";

pub(crate) const KIND: &str = "kind";

pub(crate) const METADATA: &str = "metadata";

pub(crate) const SPEC: &str = "spec";

/// What one item of a document means.
#[derive(Drop)]
pub enum Item {
    Pod(Pod),
    Service(Service),
    Authorization(AuthorizationPolicy),
    Peer(PeerAuthentication),
    Request(RequestAuthentication),
    Mesh(MeshConfig),
    /// Passed over.
    Other,
}

/// The item `v` at `at`, or its first fault: WrongType or MissingField where it is no object with the texts
/// `apiVersion` and `kind`, WrongKind where a known group has no such kind, and those of its kind.
#[tactic(auto, unfolding(crate::specs::Items::item_faults, crate::specs::Items::item_in, crate::specs::Items::heading_faults, crate::specs::Items::kind_in))]
pub(crate) fn read_item(alloc: Global, v: &Value, at: &Spot) -> Result<Item, DocError>
    ensures { Reads result (items.item_faults (view v.now) at.now) (items.item_in (view v.now)) }
{
    at.object(alloc, v)?;
    let version = required::<AnyText>(alloc, v, API_VERSION, at)?;
    let kind = required::<AnyText>(alloc, v, KIND, at)?;
    match kind_of(version.as_str(), kind.as_str()) {
        Some(kind) => read_kind(alloc, kind, v, at),
        None => Err(Spot::key(at, KIND).refuse(alloc, Reason::WrongKind)),
    }
}

#[tactic(auto, unfolding(crate::specs::Items::kind_faults, crate::specs::Items::kind_value))]
fn read_kind(alloc: Global, kind: Kind, v: &Value, at: &Spot) -> Result<Item, DocError>
    ensures { Reads result
        (items.kind_faults kind (view v.now) at.now)
        (items.kind_value kind (view v.now)) }
{
    match kind {
        Kind::Pod => Ok(Item::Pod(read_pod(alloc, v, at)?)),
        Kind::Service => Ok(Item::Service(read_service(alloc, v, at)?)),
        Kind::Authorization => Ok(Item::Authorization(read_authorization_item(alloc, v, at)?)),
        Kind::Peer => Ok(Item::Peer(read_peer_item(alloc, v, at)?)),
        Kind::Request => Ok(Item::Request(read_request_item(alloc, v, at)?)),
        Kind::Mesh => Ok(Item::Mesh(read_mesh_item(alloc, v, at)?)),
        Kind::Other => Ok(Item::Other),
    }
}

/// An item behind those that stand before it: DuplicateItem for one of an earlier item's kind, namespace and name, and
/// for a second MeshConfig.
pub(crate) struct NextItem;

impl InTurn for NextItem {
    type Out = Item;

    type Seen = Seen<ItemKey>;

    ghost faults = { items.next_faults };

    ghost value = { items.item_in };

    ghost after = { items.after_item };

    #[tactic(auto, unfolding(crate::specs::Items::next_faults, crate::specs::Items::after_item))]
    fn read(
        alloc: Global,
        seen: &mut Seen<ItemKey>,
        v: &Value,
        at: &Spot,
    ) -> Result<Item, DocError> {
        let item = read_item(alloc, v, at)?;
        if !note_next(seen, key_of(alloc, &item)?)? {
            return Err(at.refuse(alloc, Reason::DuplicateItem));
        }
        Ok(item)
    }
}

fn note_next(seen: &mut Seen<ItemKey>, key: Option<ItemKey>) -> Result<bool, Memory>
    ensures new { IfOk result (λ is_new. is_new ≡ items.is_new seen.old key) }
    ensures kept { IfOk result (λ is_new. IsTrue is_new → seen.new ≡ items.seen_with seen.old key) }
{
    match key {
        Some(key) => note_item(seen, key),
        None => Ok(true),
    }
}

#[tactic(auto, unfolding(crate::specs::Items::key_of))]
fn key_of(alloc: Global, item: &Item) -> Result<Option<ItemKey>, Memory>
    ensures { IfOk result (λ key. key ≡ items.key_of item.now) }
{
    match item {
        Item::Pod(pod) => some_key(alloc, Kind::Pod, &pod.namespace, &pod.name),
        Item::Service(service) => some_key(alloc, Kind::Service, &service.namespace, &service.name),
        Item::Authorization(policy) => some_key(
            alloc,
            Kind::Authorization,
            &policy.namespace,
            &policy.name,
        ),
        Item::Peer(policy) => some_key(alloc, Kind::Peer, &policy.namespace, &policy.name),
        Item::Request(policy) => some_key(alloc, Kind::Request, &policy.namespace, &policy.name),
        Item::Mesh(_) => some_key(alloc, Kind::Mesh, "", ""),
        Item::Other => Ok(None),
    }
}

fn some_key(
    alloc: Global,
    kind: Kind,
    namespace: &str,
    name: &str,
) -> Result<Option<ItemKey>, Memory>
    ensures { IfOk result (λ key. key ≡ Some (record { kind = kind; namespace = namespace.now; name = name.now })) }
{
    Ok(Some(ItemKey::of(alloc, kind, namespace, name)?))
}
