// A Service: its selector and its TCP ports.
ghost use Rattle.serde_json.specs.View.{view};
ghost use Rattle.mesh_doc.specs.Faults.{Reads};
ghost use Rattle.manifest_json.specs.Service as service;

use crate::flat::kept;
use crate::items::{METADATA, SPEC};
use crate::metadata::{NAME, PlainMeta};
use crate::ports::{PORT, PORTS, PortNumber, has_other_protocol};
use mesh_doc::{AnyText, DocError, Form, Spot, listed, optional, or_empty, required};
use mesh_policy::{Label, MOST_ENTRIES, Service, ServicePort, Target};
use mesh_text::{List, Text};
use policy_json::Labels;
use serde_json::Value;
use std::alloc::Global;

const SELECTOR: &str = "selector";

const TARGET_PORT: &str = "targetPort";

const APP_PROTOCOL: &str = "appProtocol";

/// The Service that the item at `at` means (Kubernetes API reference, Service v1), or its first fault: those of
/// its metadata, and in its `spec` WrongType, MissingField, BadPort, and TooMany for more than 2,048 ports.
#[tactic(auto, unfolding(crate::specs::Service::service_faults, crate::specs::Service::service_in))]
pub(crate) fn read_service(alloc: Global, item: &Value, at: &Spot) -> Result<Service, DocError>
    ensures { Reads result
        (service.service_faults (view item.now) at.now)
        (service.service_in (view item.now)) }
{
    at.object(alloc, item)?;
    let names = required::<PlainMeta>(alloc, item, METADATA, at)?;
    let spec = or_empty::<Spec>(alloc, item, SPEC, at)?;
    Ok(Service {
        name: names.name,
        namespace: names.namespace,
        selector: spec.selector,
        ports: spec.ports,
    })
}

#[derive(Drop)]
struct ServiceSpec {
    selector: List<Label>,
    ports: List<ServicePort>,
}

struct Spec;

impl Form for Spec {
    type Out = ServiceSpec;

    ghost faults = { service.service_spec_faults };

    ghost value = { service.service_spec_in };

    #[tactic(auto, unfolding(crate::specs::Service::service_spec_faults, crate::specs::Service::service_spec_in))]
    fn read(alloc: Global, v: &Value, at: &Spot) -> Result<ServiceSpec, DocError> {
        at.object(alloc, v)?;
        let selector = or_empty::<Labels>(alloc, v, SELECTOR, at)?;
        let ports = listed::<PortEntry>(alloc, v, PORTS, MOST_ENTRIES, at)?;
        Ok(ServiceSpec {
            selector,
            ports: kept(alloc, ports)?,
        })
    }
}

struct PortEntry;

impl Form for PortEntry {
    type Out = Option<ServicePort>;

    ghost faults = { service.service_port_faults };

    ghost value = { service.service_port_in };

    #[tactic(auto, unfolding(crate::specs::Service::service_port_faults, crate::specs::Service::service_port_in))]
    fn read(alloc: Global, v: &Value, at: &Spot) -> Result<Option<ServicePort>, DocError> {
        at.object(alloc, v)?;
        if has_other_protocol(v) {
            return Ok(None);
        }
        let name = optional::<AnyText>(alloc, v, NAME, at)?;
        let port = required::<PortNumber>(alloc, v, PORT, at)?;
        let target = optional::<TargetPort>(alloc, v, TARGET_PORT, at)?;
        let app_protocol = optional::<AnyText>(alloc, v, APP_PROTOCOL, at)?;
        Ok(Some(ServicePort {
            name,
            port,
            target: target.unwrap_or(Target::Same),
            app_protocol,
        }))
    }
}

struct TargetPort;

impl Form for TargetPort {
    type Out = Target;

    ghost faults = { service.target_faults };

    ghost value = { service.target_in };

    #[tactic(auto, unfolding(crate::specs::Service::target_faults, crate::specs::Service::target_in, mesh_doc::specs::Kinds::text_in))]
    fn read(alloc: Global, v: &Value, at: &Spot) -> Result<Target, DocError> {
        match v {
            Value::String(name) => Ok(Target::Named(Text::of(alloc, name.as_str())?)),
            _ => Ok(Target::Number(PortNumber::read(alloc, v, at)?)),
        }
    }
}
