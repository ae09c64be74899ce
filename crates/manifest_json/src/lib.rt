//! The reader of the manifests of a mesh: it answers the bundle that a document means, or the first of its faults in
//! reading order (Kubernetes API reference; Istio reference; docs/FORMATS.md has the forms).
#![tactic(auto)]

mod document;
mod flat;
mod gather;
mod items;
mod key;
mod kind_table;
mod mesh_config;
mod metadata;
mod pod;
mod policy_items;
mod ports;
mod seen;
mod service;
mod words;

pub use document::read_bundle;
pub use words::manifest_words;
