// A Pod: its labels and the named ports of its containers.
ghost use Rattle.std.specs.Prelude.{◌≡◌};
ghost use Rattle.serde_json.specs.View.{view};
ghost use Rattle.mesh_doc.specs.Faults.{Reads};
ghost use Rattle.manifest_json.specs.Pod as pod;

use crate::flat::{joined, kept};
use crate::items::{METADATA, SPEC};
use crate::metadata::{NAME, PodMeta};
use crate::ports::{PORTS, PortNumber, has_other_protocol};
use mesh_doc::{AnyText, DocError, Form, Spot, field, listed, or_empty, required};
use mesh_policy::{MOST_ENTRIES, NamedPort, Pod};
use mesh_text::List;
use serde_json::Value;
use std::alloc::Global;

const CONTAINERS: &str = "containers";

const CONTAINER_PORT: &str = "containerPort";

/// The Pod that the item at `at` means (Kubernetes API reference, Pod v1), or its first fault: those of its
/// metadata, and in its `spec` WrongType, MissingField, BadPort, and TooMany for a list of more than 2,048 entries.
#[tactic(auto, unfolding(crate::specs::Pod::pod_faults, crate::specs::Pod::pod_in))]
pub(crate) fn read_pod(alloc: Global, item: &Value, at: &Spot) -> Result<Pod, DocError>
    ensures { Reads result (pod.pod_faults (view item.now) at.now) (pod.pod_in (view item.now)) }
{
    at.object(alloc, item)?;
    let metadata = required::<PodMeta>(alloc, item, METADATA, at)?;
    let ports = or_empty::<PodSpec>(alloc, item, SPEC, at)?;
    Ok(Pod {
        name: metadata.names.name,
        namespace: metadata.names.namespace,
        labels: metadata.labels,
        ports,
    })
}

struct PodSpec;

impl Form for PodSpec {
    type Out = List<NamedPort>;

    ghost faults = { pod.pod_spec_faults };

    ghost value = { pod.pod_spec_in };

    #[tactic(auto, unfolding(crate::specs::Pod::pod_spec_faults, crate::specs::Pod::pod_spec_in))]
    fn read(alloc: Global, v: &Value, at: &Spot) -> Result<List<NamedPort>, DocError> {
        at.object(alloc, v)?;
        let containers = listed::<Container>(alloc, v, CONTAINERS, MOST_ENTRIES, at)?;
        Ok(joined(alloc, containers)?)
    }
}

struct Container;

impl Form for Container {
    type Out = List<NamedPort>;

    ghost faults = { pod.container_faults };

    ghost value = { pod.container_in };

    #[tactic(auto, unfolding(crate::specs::Pod::container_faults, crate::specs::Pod::container_in))]
    fn read(alloc: Global, v: &Value, at: &Spot) -> Result<List<NamedPort>, DocError> {
        at.object(alloc, v)?;
        let ports = listed::<ContainerPort>(alloc, v, PORTS, MOST_ENTRIES, at)?;
        Ok(kept(alloc, ports)?)
    }
}

struct ContainerPort;

impl Form for ContainerPort {
    type Out = Option<NamedPort>;

    ghost faults = { pod.named_port_faults };

    ghost value = { pod.named_port_in };

    #[tactic(auto, unfolding(crate::specs::Pod::named_port_faults, crate::specs::Pod::named_port_in))]
    fn read(alloc: Global, v: &Value, at: &Spot) -> Result<Option<NamedPort>, DocError> {
        at.object(alloc, v)?;
        if is_passed(v) {
            return Ok(None);
        }
        let name = required::<AnyText>(alloc, v, NAME, at)?;
        let port = required::<PortNumber>(alloc, v, CONTAINER_PORT, at)?;
        Ok(Some(NamedPort { name, port }))
    }
}

#[tactic(auto, unfolding(crate::specs::Pod::is_passed))]
fn is_passed(entry: &Value) -> bool
    ensures { result ≡ pod.is_passed (view entry.now) }
{
    has_other_protocol(entry) || field(entry, NAME).is_none()
}
