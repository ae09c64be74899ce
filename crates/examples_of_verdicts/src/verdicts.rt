// What the listener that is built for a Pod of a document decides of a case.
ghost use Rattle.std.specs.Prelude.{◌≡◌};
ghost use Rattle.serde_json.specs.View.{view};
ghost use Rattle.chain_build.specs.Buildable.{IsBuildable};
ghost use Rattle.manifest_json.specs.Document.{bundle_in};
ghost use Rattle.mesh_policy.specs.AcceptedBundle.{AcceptedBundle};
ghost use Rattle.mesh_policy.specs.Workload.{workload_of};
ghost use Rattle.mesh_policy.specs.declared.pod.Pod.{Pod as Selected};

use crate::cases::case_of;
use crate::judgements::judged;
use call_lines::{Call, Stop, refused};
use chain_build::build;
use kept_back::not_yet;
use manifest_json::read_bundle;
use mesh_doc::place_text;
use mesh_policy::{Bundle, Case};
use mesh_select::{SelectError, Workload, select};
use mesh_text::List;
use serde_json::Value;
use std::alloc::Global;

// Who is asked for, and the case.
#[derive(Clone, Copy)]
struct Asked<'a> {
    namespace: &'a str,
    pod: &'a str,
    case: &'a Case,
}

/// The first argument is a document, the second one `NAMESPACE/POD`, and the third one a case in short.
pub fn answer(alloc: Global, call: &Call) -> Result<String, Stop> {
    let Some((namespace, pod)) = call.text(1)?.split_once('/') else {
        return Err(Stop::Arguments);
    };
    let case = case_of(alloc, call.value(2)?)?;
    let asked = Asked {
        namespace,
        pod,
        case: &case,
    };
    of_document(alloc, call.value(0)?, &asked)
}

fn of_document(alloc: Global, document: &Value, asked: &Asked) -> Result<String, Stop> {
    match read_bundle(alloc, document, &List::new(alloc)) {
        Ok(bundle) => of_manifests(alloc, document, &bundle, asked),
        Err(error) => refused(alloc, error),
    }
}

fn of_manifests(
    alloc: Global,
    document: &Value,
    bundle: &Bundle,
    asked: &Asked,
) -> Result<String, Stop>
    requires accepted { AcceptedBundle bundle.now }
    requires read { bundle.now ≡ bundle_in (view document.now) }
{
    match not_yet(alloc, document)? {
        None => of_pod(alloc, bundle, asked),
        Some(place) => Ok(format!(in alloc; "{}: NotYet", place_text(alloc, &place)?)?),
    }
}

fn of_pod(alloc: Global, bundle: &Bundle, asked: &Asked) -> Result<String, Stop>
    requires accepted { AcceptedBundle bundle.now }
    requires buildable { (pod : Selected) → IsBuildable (workload_of bundle.now pod) }
{
    match select(alloc, bundle, asked.namespace, asked.pod) {
        Ok(workload) => of_workload(alloc, &workload, asked.case),
        Err(SelectError::Memory) => Err(Stop::Memory),
        Err(_) => Ok(format!(in alloc; "there is no such workload")?),
    }
}

fn of_workload(alloc: Global, workload: &Workload, case: &Case) -> Result<String, Stop>
    requires { IsBuildable workload.now }
{
    let listener = build(alloc, workload)?;
    Ok(judged(alloc, &listener, case)?)
}
