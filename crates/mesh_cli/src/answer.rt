// What a command answers to the bytes of its input.
ghost use Rattle.std.specs.Prelude.{◌≡◌, ◌≤◌, [], None, Some, length, string_bytes, IfOk, IfErr, IsTrue, OnOk};
ghost use Rattle.serde_json.specs.View.{view};
ghost use Rattle.mesh_doc.specs.Faults.{first};
ghost use Rattle.manifest_json.specs.Document.{bundle_faults, bundle_in};
ghost use Rattle.mesh_policy.specs.AcceptedBundle.{AcceptedBundle};
ghost use Rattle.mesh_policy.specs.SelectFault.{pod_named};
ghost use Rattle.mesh_policy.specs.Workload.{workload_of};
ghost use Rattle.mesh_policy.specs.declared.pod.Pod.{Pod as Named};
ghost use Rattle.chain_build.specs.Buildable.{IsBuildable};
ghost use Rattle.kept_back.specs.Manifests.{not_yet as waits};
ghost use Rattle.mesh_cli.specs.Answer as answer;
ghost use Rattle.mesh_cli.specs.Headline.{Enforces, EnforcesFor};
ghost use Rattle.mesh_cli.specs.Refusal.{Answer, Stops, writes};
ghost use Rattle.mesh_cli.specs.declared.words.Command.{Command as Asked};

use crate::counts::counts_text;
use crate::pod_name::PodName;
use crate::refusal::{Stop, refuse, refuse_fault, refuse_place};
use crate::selection::refuse_pod;
use crate::text::listener_text;
use crate::words::Command;
use kept_back::not_yet;
use manifest_json::read_bundle;
use mesh_doc::DocError;
use mesh_policy::Bundle;
use mesh_select::select;
use mesh_text::List;
use serde_json::Value;
use std::alloc::Global;

/// The text that a command answers to an input of at most 8,388,608 bytes, without its newline; or the refusal.
#[tactic(auto, unfolding(crate::specs::Answer::answer_of))]
pub fn respond(alloc: Global, command: &Command, bytes: &[u8]) -> Result<String, Stop>
    requires { length bytes.now ≤ answer.max_input }
    ensures ok { IfOk result (λ s. answer.answer_of command.now bytes.now ≡ writes (string_bytes s)) }
    ensures enforces { IfOk result (λ s. EnforcesFor command.now bytes.now (string_bytes s)) }
    ensures err { IfErr result (λ why. Stops why (answer.answer_of command.now bytes.now)) }
{
    let document = read_document(alloc, bytes)?;
    let bundle = read_manifests(alloc, &document)?;
    match command {
        Command::Check => Ok(counts_text(alloc, &bundle)?),
        Command::Translate(name) => translate(alloc, &document, &bundle, name),
    }
}

// The value that the bytes are as JSON.
fn read_document(alloc: Global, bytes: &[u8]) -> Result<Value, Stop>
    ensures ok { IfOk result (λ v. answer.document_of bytes.now ≡ Some (view v)) }
    ensures err { IfErr result (λ why. (asked : Asked)
        → Stops why (answer.answer_to asked (answer.document_of bytes.now))) }
{
    match Value::from_slice(alloc, bytes) {
        Ok(document) => Ok(document),
        Err(error) => {
            if error.is_memory() {
                return Err(Stop::Memory);
            }
            Err(refuse(alloc, "input", "NotJson"))
        }
    }
}

// The manifests of a document.
fn read_manifests(alloc: Global, document: &Value) -> Result<Bundle, Stop>
    ensures faultless { OnOk result (first (bundle_faults (view document.now) []) ≡ None) }
    ensures accepted { IfOk result AcceptedBundle }
    ensures ok { IfOk result (λ b. b ≡ bundle_in (view document.now)) }
    ensures err { IfErr result (λ why. (rest : Answer)
        → Stops why (answer.answer_unless (first (bundle_faults (view document.now) [])) rest)) }
{
    match read_bundle(alloc, document, &List::new(alloc)) {
        Ok(bundle) => Ok(bundle),
        Err(DocError::Fault(fault)) => Err(refuse_fault(alloc, &fault)),
        Err(DocError::Memory) => Err(Stop::Memory),
    }
}

// The listener of the named Pod, for the manifests that one is built for so far.
#[tactic(auto, unfolding(crate::specs::Answer::translation))]
fn translate(
    alloc: Global,
    document: &Value,
    bundle: &Bundle,
    name: &PodName,
) -> Result<String, Stop>
    requires accepted { AcceptedBundle bundle.now }
    requires read { bundle.now ≡ bundle_in (view document.now) }
    ensures ok { IfOk result (λ s. answer.translation name.now bundle.now (waits (view document.now)) ≡ writes (string_bytes s)) }
    ensures enforces { IfOk result (λ s. (pod : Named) → pod_named name.now.namespace name.now.name bundle.now ≡ Some pod
        → Enforces (workload_of bundle.now pod) (string_bytes s)) }
    ensures err { IfErr result (λ why. Stops why (answer.translation name.now bundle.now (waits (view document.now)))) }
{
    match not_yet(alloc, document)? {
        None => translate_selected(alloc, bundle, name),
        Some(place) => Err(refuse_place(alloc, &place, "NotYet")),
    }
}

// The listener of the named Pod, where selection accepts it.
fn translate_selected(alloc: Global, bundle: &Bundle, name: &PodName) -> Result<String, Stop>
    requires accepted { AcceptedBundle bundle.now }
    requires buildable { (pod : Named) → IsBuildable (workload_of bundle.now pod) }
    ensures ok { IfOk result (λ s. answer.selection name.now bundle.now ≡ writes (string_bytes s)) }
    ensures enforces { IfOk result (λ s. (pod : Named) → pod_named name.now.namespace name.now.name bundle.now ≡ Some pod
        → Enforces (workload_of bundle.now pod) (string_bytes s)) }
    ensures err { IfErr result (λ why. Stops why (answer.selection name.now bundle.now)) }
{
    match select(alloc, bundle, name.namespace(), name.name()) {
        Ok(workload) => Ok(listener_text(alloc, &workload)?),
        Err(error) => Err(refuse_pod(alloc, name, &error)),
    }
}
