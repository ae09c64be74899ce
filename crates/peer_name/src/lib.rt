//! The names of peers: the parts of a SPIFFE name, and the matcher trees of principals and of namespaces, each of which holds
//! exactly where its pattern does.
#![tactic(auto)]

mod names;
mod namespace;
mod principal;

pub use names::{PeerName, Span};
pub use namespace::namespace_tree;
pub use principal::principal_tree;
