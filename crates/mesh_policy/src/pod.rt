// Pods, their labels and named ports.
use mesh_text::{List, Text};

/// A label of a Pod, or one that a selector asks for (Kubernetes, "Labels and Selectors").
#[derive(Debug, Drop, PartialEq, Eq)]
pub struct Label {
    pub key: Text,
    pub value: Text,
}

/// A Pod (Kubernetes API reference, Pod v1): a workload that policies and Services select by its labels.
#[derive(Debug, Drop, PartialEq, Eq)]
pub struct Pod {
    /// A DNS subdomain (RFC 1123, section 2.1), of at most 253 bytes.
    pub name: Text,
    /// A DNS label, of at most 63 bytes.
    pub namespace: Text,
    /// In byte order of their keys.
    pub labels: List<Label>,
    /// The named TCP ports of its containers, in the order of the document. Of two with one name the first counts.
    pub ports: List<NamedPort>,
}

/// A port of a container by its name (Kubernetes API reference, ContainerPort).
#[derive(Debug, Drop, PartialEq, Eq)]
pub struct NamedPort {
    pub name: Text,
    /// From 1 to 65,535.
    pub port: u16,
}
