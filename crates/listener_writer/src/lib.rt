//! The JSON value in which a listener is written (Envoy v3 API reference; docs/FORMATS.md has the forms).
#![tactic(auto)]

mod authz;
mod chains;
mod filters;
mod jwt;
mod listener;
mod lists;
mod places;
mod providers;
mod rbac;
mod routes;
mod sockets;

pub use listener::to_value;
