// The document, and the first place of it that no listener is built for.
ghost use Rattle.std.specs.Prelude.{◌≡◌, [], None, IfOk};
ghost use Rattle.serde_json.specs.View.{view};
ghost use Rattle.chain_build.specs.Buildable.{IsBuildable};
ghost use Rattle.manifest_json.specs.Document.{bundle_in, is_list};
ghost use Rattle.mesh_doc.specs.Faults.{Reads};
ghost use Rattle.mesh_policy.specs.Workload.{workload_of};
ghost use Rattle.mesh_policy.specs.declared.pod.Pod.{Pod as Selected};
ghost use Rattle.kept_back.specs.Manifests as meant;

use crate::fields::text_at;
use crate::items::{ItemEntry, KIND};
use mesh_doc::{DocError, Form, Place, Spot, listed};
use mesh_policy::MOST_ITEMS;
use mesh_text::{List, Memory};
use serde_json::Value;
use std::alloc::Global;

const LIST: &str = "List";

const ITEMS: &str = "items";

/// The first place, in reading order, that no listener is built for yet. None where one is built for every Pod of the
/// manifests. It is asked of a document without fault. Memory for the place is the one error.
pub fn not_yet(alloc: Global, document: &Value) -> Result<Option<Place>, Memory>
    ensures place { IfOk result (λ place. place ≡ meant.not_yet (view document.now)) }
    ensures buildable { IfOk result (λ place. place ≡ None → (pod : Selected)
        → IsBuildable (workload_of (bundle_in (view document.now)) pod)) }
{
    first_place(alloc, document)
}

#[tactic(auto, unfolding(crate::specs::Manifests::not_yet))]
fn first_place(alloc: Global, document: &Value) -> Result<Option<Place>, Memory>
    ensures { IfOk result (λ place. place ≡ meant.not_yet (view document.now)) }
{
    match read_document(alloc, document, &Spot::of(&List::new(alloc))) {
        Ok(()) => Ok(None),
        Err(DocError::Fault(fault)) => Ok(Some(fault.place)),
        Err(DocError::Memory) => Err(Memory),
    }
}

#[tactic(auto, unfolding(crate::specs::Manifests::document_kept))]
fn read_document(alloc: Global, v: &Value, at: &Spot) -> Result<(), DocError>
    ensures { Reads result (meant.document_kept (view v.now) at.now) tt }
{
    if !is_list(v) {
        return ItemEntry::read(alloc, v, at);
    }
    listed::<ItemEntry>(alloc, v, ITEMS, MOST_ITEMS, at)?;
    Ok(())
}

#[tactic(auto, unfolding(manifest_json::specs::Document::is_list))]
fn is_list(v: &Value) -> bool
    ensures { result ≡ is_list (view v.now) }
{
    text_at(v, KIND) == LIST
}
