//! The inbound listener of a workload: its filter chains, which give each connection the verdict of the policies.
#![tactic(auto)]

mod chains;
mod filters;
mod listener;

pub use listener::build;
