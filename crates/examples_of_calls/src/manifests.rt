// Manifests in short: each item by its name with what it says, the mesh, and the counts.
use call_lines::{Call, Stop, refused};
use manifest_json::read_bundle;
use mesh_doc::{Place, Step};
use mesh_policy::{
    Bundle, Label, MeshConfig, PeerAuthentication, Pod, Service, ServicePort, Target,
};
use mesh_text::{List, Text};
use std::alloc::Global;

/// The manifests of a document. It stands at the whole, or in the field that a second argument names.
pub fn answer(alloc: Global, call: &Call) -> Result<String, Stop> {
    let mut place: Place = List::new(alloc);
    if call.arguments.len() > 1 {
        place.push(Step::Key(Text::of(alloc, call.text(1)?)?))?;
    }
    match read_bundle(alloc, call.value(0)?, &place) {
        Ok(bundle) => shown(alloc, &bundle),
        Err(error) => refused(alloc, error),
    }
}

fn shown(alloc: Global, bundle: &Bundle) -> Result<String, Stop> {
    let mut out = String::new(alloc);
    for pod in &bundle.pods {
        push_pod(&mut out, pod)?;
    }
    for service in &bundle.services {
        push_service(&mut out, service)?;
    }
    push_policies(&mut out, bundle)?;
    push_mesh(&mut out, &bundle.mesh)?;
    write!(out, "mesh {}, other {}", bundle.mesh_items, bundle.others)?;
    Ok(out)
}

fn push_item(out: &mut String, kind: &str, namespace: &Text, name: &Text) -> Result<(), Stop> {
    write!(out, "{kind} {namespace}/{name}")?;
    Ok(())
}

fn push_labels(out: &mut String, labels: &List<Label>) -> Result<(), Stop> {
    for label in labels {
        write!(out, " {}={}", label.key, label.value)?;
    }
    Ok(())
}

// Its name, its labels, and its ports.
fn push_pod(out: &mut String, pod: &Pod) -> Result<(), Stop> {
    push_item(out, "pod", &pod.namespace, &pod.name)?;
    push_labels(out, &pod.labels)?;
    for port in &pod.ports {
        write!(out, " {}:{}", port.name, port.port)?;
    }
    out.push_str("; ")?;
    Ok(())
}

// Its name, its selector, and of each port the name, the number, the target and the protocol.
fn push_service(out: &mut String, service: &Service) -> Result<(), Stop> {
    push_item(out, "service", &service.namespace, &service.name)?;
    push_labels(out, &service.selector)?;
    for port in &service.ports {
        push_port(out, port)?;
    }
    out.push_str("; ")?;
    Ok(())
}

fn push_port(out: &mut String, port: &ServicePort) -> Result<(), Stop> {
    write!(out, " {}:{}", or_dash(&port.name), port.port)?;
    match &port.target {
        Target::Same => out.push_str(">same")?,
        Target::Number(number) => write!(out, ">number {number}")?,
        Target::Named(name) => write!(out, ">named {name}")?,
    }
    write!(out, " {}", or_dash(&port.app_protocol))?;
    Ok(())
}

fn or_dash(text: &Option<Text>) -> &str {
    match text {
        Some(text) => text.as_str(),
        None => "-",
    }
}

fn push_policies(out: &mut String, bundle: &Bundle) -> Result<(), Stop> {
    for policy in &bundle.authorization {
        push_item(out, "authorization", &policy.namespace, &policy.name)?;
        out.push_str("; ")?;
    }
    for policy in &bundle.peers {
        push_peer(out, policy)?;
    }
    for policy in &bundle.requests {
        push_item(out, "request", &policy.namespace, &policy.name)?;
        out.push_str("; ")?;
    }
    Ok(())
}

// Its name and its age.
fn push_peer(out: &mut String, policy: &PeerAuthentication) -> Result<(), Stop> {
    push_item(out, "peer", &policy.namespace, &policy.name)?;
    write!(out, " {}; ", or_dash(&policy.age))?;
    Ok(())
}

fn push_mesh(out: &mut String, mesh: &MeshConfig) -> Result<(), Stop> {
    write!(out, "root {}; ", mesh.root)?;
    for provider in &mesh.providers {
        let form = if provider.http { "http" } else { "grpc" };
        let open = if provider.fail_open { " open" } else { "" };
        let (name, service) = (provider.name.as_str(), provider.service.as_str());
        write!(out, "{name} {form} {service}:{}{open}; ", provider.port)?;
    }
    Ok(())
}
