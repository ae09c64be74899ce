// Services and their ports.
use crate::Label;
use mesh_text::{List, Text};

/// A Service (Kubernetes API reference, Service v1): it gives ports to the Pods that it selects in its namespace.
#[derive(Debug, Drop, PartialEq, Eq)]
pub struct Service {
    pub name: Text,
    pub namespace: Text,
    /// What the labels of a Pod have to hold. It selects no Pod where there are none.
    pub selector: List<Label>,
    /// Its TCP ports, in the order of the document.
    pub ports: List<ServicePort>,
}

/// A TCP port of a Service (Kubernetes API reference, ServicePort).
#[derive(Debug, Drop, PartialEq, Eq)]
pub struct ServicePort {
    pub name: Option<Text>,
    /// The Service's own port, from 1 to 65,535.
    pub port: u16,
    pub target: Target,
    /// The protocol by name, which goes before the name of the port (Istio, "Protocol Selection").
    pub app_protocol: Option<Text>,
}

/// The port of the Pod behind a Service's port (`targetPort`).
#[derive(Debug, Drop, PartialEq, Eq)]
pub enum Target {
    /// The same number: none is written.
    Same,
    /// From 1 to 65,535.
    Number(u16),
    /// The container port of that name.
    Named(Text),
}

/// What a port of a workload speaks (Istio, "Protocol Selection").
#[derive(Clone, Copy, Debug, PartialEq, Eq)]
pub enum Protocol {
    Http,
    Tcp,
}
