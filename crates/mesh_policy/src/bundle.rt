// The manifests of one document, and the settings of the mesh.
use crate::{
    AuthorizationPolicy, PeerAuthentication, Pod, Provider, RequestAuthentication, Service,
};
use mesh_text::{List, Text};

/// The settings of the whole mesh (Istio reference, MeshConfig).
#[derive(Debug, Drop, PartialEq, Eq)]
pub struct MeshConfig {
    /// The namespace whose policies apply to the Pods of all namespaces.
    pub root: Text,
    /// The external authorizers that CUSTOM policies may name, each name once.
    pub providers: List<Provider>,
}

/// The manifests of one document, each kind in the order of the document. No two of one kind have one namespace and
/// name.
#[derive(Debug, Drop, PartialEq, Eq)]
pub struct Bundle {
    pub pods: List<Pod>,
    pub services: List<Service>,
    pub authorization: List<AuthorizationPolicy>,
    pub peers: List<PeerAuthentication>,
    pub requests: List<RequestAuthentication>,
    /// Its defaults where the document has no MeshConfig.
    pub mesh: MeshConfig,
    /// How many MeshConfigs the document has: one at most.
    pub mesh_items: u32,
    /// How many items of other kinds were passed over.
    pub others: u32,
}
