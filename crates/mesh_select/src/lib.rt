//! Selection: the workload of a Pod, or the reason why there is none. The definitions are those of `mesh_policy`.
#![tactic(auto)]

mod answer;
mod applying;
mod build;
mod error;
mod faults;
mod headers;
mod labels;
mod modes;
mod paired;
mod ports;
mod providers;
mod selection;
mod sizes;
mod texts;
mod workload;

pub use answer::select;
pub use error::SelectError;
pub use workload::Workload;
