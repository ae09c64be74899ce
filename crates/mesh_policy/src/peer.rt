// PeerAuthentications: how ports take TLS.
use crate::Label;
use mesh_text::{List, Text};

/// A PeerAuthentication (Istio reference, PeerAuthentication): how the ports of a workload take TLS.
#[derive(Debug, Drop, PartialEq, Eq)]
pub struct PeerAuthentication {
    pub name: Text,
    pub namespace: Text,
    /// When it was made, as a time of RFC 3339 in whole seconds and UTC, where it says so. The oldest of two wins.
    pub age: Option<Text>,
    /// What the labels of a Pod have to hold. It speaks of the whole namespace where there are none.
    pub labels: List<Label>,
    /// None where it is UNSET, and the wider policy decides.
    pub mode: Option<Mode>,
    /// The modes of single ports, in byte order of their written numbers.
    pub ports: List<PortMode>,
}

/// The mode of one port of a workload.
#[derive(Debug, Drop, PartialEq, Eq)]
pub struct PortMode {
    /// From 1 to 65,535.
    pub port: u16,
    /// None where it is UNSET.
    pub mode: Option<Mode>,
}

/// How a port takes connections (Istio reference, PeerAuthentication, mutual TLS modes).
#[derive(Clone, Copy, Debug, PartialEq, Eq)]
pub enum Mode {
    /// TLS is passed on unread.
    Disable,
    /// Plain text and mutual TLS.
    Permissive,
    /// Mutual TLS alone.
    Strict,
}
