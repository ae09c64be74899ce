//! The listener that a JSON value spells, or the first fault of the value (Envoy v3 API reference; docs/FORMATS.md has the forms);
//! and that what is written of a listener is read back.
#![tactic(auto)]

mod authz;
mod chains;
mod clashes;
mod filters;
mod jwt;
mod listener;
mod lists;
mod manager;
mod maps;
mod parts;
mod providers;
mod rbac;
mod requirements;
mod round_trip;
mod routes;
mod sockets;

pub use listener::from_value;
pub use round_trip::{read_back_text, read_can_be_written, written_is_read};
