// Items of a document, by their kind.
ghost use Rattle.std.specs.Prelude.{◌≡◌};
ghost use Rattle.serde_json.specs.View.{view};
ghost use Rattle.manifest_json.specs.KindTable as table;
ghost use Rattle.mesh_doc.specs.Faults.{Reads};
ghost use Rattle.kept_back.specs.Items.{item_kept, kind_kept};

use crate::fields::text_at;
use crate::policies::read_policy;
use mesh_doc::{DocError, Form, Reason, Spot};
use serde_json::Value;
use std::alloc::Global;

const API_VERSION: &str = "apiVersion";

pub(crate) const KIND: &str = "kind";

pub(crate) const SPEC: &str = "spec";

const ISTIO_V1: &str = "security.istio.io/v1";

const ISTIO_V1BETA1: &str = "security.istio.io/v1beta1";

const AUTHORIZATION_POLICY: &str = "AuthorizationPolicy";

const REQUEST_AUTHENTICATION: &str = "RequestAuthentication";

/// An item of a document, of which the first place is told that no listener is built for.
pub(crate) struct ItemEntry;

impl Form for ItemEntry {
    type Out = ();

    ghost faults = { item_kept };

    ghost value = { λ _. tt };

    #[tactic(auto, unfolding(crate::specs::Items::item_kept, manifest_json::specs::Items::kind_in))]
    fn read(alloc: Global, v: &Value, at: &Spot) -> Result<(), DocError> {
        read_kind(alloc, text_at(v, API_VERSION), text_at(v, KIND), v, at)
    }
}

#[tactic(auto, using(crate::proofs::ItemKinds::of_policy, crate::proofs::ItemKinds::of_other))]
fn read_kind(alloc: Global, version: &str, kind: &str, v: &Value, at: &Spot) -> Result<(), DocError>
    ensures { Reads result (kind_kept (table.kind_of version.now kind.now) (view v.now) at.now) tt }
{
    if is_policy_version(version) {
        return read_policy_kind(alloc, kind, v, at);
    }
    Ok(())
}

fn is_policy_version(version: &str) -> bool
    ensures { result ≡ table.is_policy_version version.now }
{
    version == ISTIO_V1 || version == ISTIO_V1BETA1
}

fn read_policy_kind(alloc: Global, kind: &str, v: &Value, at: &Spot) -> Result<(), DocError>
    ensures { Reads result (kind_kept (table.policy_kind kind.now) (view v.now) at.now) tt }
{
    if kind == AUTHORIZATION_POLICY {
        return read_policy(alloc, v, at);
    }
    if kind == REQUEST_AUTHENTICATION {
        return Err(at.refuse(alloc, Reason::UnknownField));
    }
    Ok(())
}
