// The workload of a Pod, or the reason why there is none.
ghost use Rattle.std.specs.Prelude.{◌≡◌, Some, IfOk};
ghost use Rattle.std.specs.Option.{option_copied, option_map};
ghost use Rattle.mesh_policy.specs.AcceptedBundle.{AcceptedBundle, AcceptedPod};
ghost use Rattle.mesh_policy.specs.SelectFault.{fault_for, pod_named, select_fault};
ghost use Rattle.mesh_policy.specs.Workload.{workload_of};
ghost use Rattle.mesh_select.specs.SelectError.{Judges};

use crate::error::SelectError;
use crate::selection::Selection;
use crate::workload::Workload;
use mesh_policy::{Bundle, Pod};
use std::alloc::Global;

/// The workload of the Pod of a namespace and name (Istio reference, "Authorization Policy", PeerAuthentication,
/// RequestAuthentication; Kubernetes API reference, Service), or the first reason why there is none.
pub fn select(
    alloc: Global,
    b: &Bundle,
    namespace: &str,
    pod: &str,
) -> Result<Workload, SelectError>
    requires { AcceptedBundle b.now }
    // Each reason comes exactly where it holds, with what it keeps.
    ensures reason { Judges result (select_fault b.now namespace.now pod.now) }
    ensures workload { IfOk result (λ w. option_map (workload_of b.now) (pod_named namespace.now pod.now b.now) ≡ Some w) }
{
    match named(b, namespace, pod) {
        None => Err(SelectError::NoWorkload),
        Some(pod) => select_pod(alloc, b, pod),
    }
}

fn select_pod(alloc: Global, b: &Bundle, pod: &Pod) -> Result<Workload, SelectError>
    requires accepted { AcceptedBundle b.now }
    requires pod { AcceptedPod pod.now }
    ensures reason { Judges result (fault_for b.now (Some pod.now)) }
    ensures workload { IfOk result (λ w. w ≡ workload_of b.now pod.now) }
{
    let selection = Selection::of(alloc, b, pod)?;
    selection.judge(alloc)?;
    Ok(selection.workload(alloc)?)
}

fn named<'a>(b: &'a Bundle, namespace: &str, name: &str) -> Option<&'a Pod>
    ensures { option_copied result ≡ pod_named namespace.now name.now b.now }
{
    for pod in b.pods.as_slice() {
        if pod.namespace.as_str() == namespace && pod.name.as_str() == name {
            return Some(pod);
        }
    }
    None
}
