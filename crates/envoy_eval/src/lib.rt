//! The meaning of a listener, computed: which filter chain a case goes to, which policies of the filters hold, and the
//! verdict. Every listener and case has an answer, and none takes memory.
#![tactic(auto)]

mod access;
mod authz;
mod chains;
mod filters;
mod hits;
mod listener;
mod names;
mod run;
mod steps;
mod tokens;
mod worked;

pub use access::effective;
pub use chains::choose;
pub use hits::{Hit, Hits};
pub use listener::{judge, trace};
pub use worked::hits_are_traced;
