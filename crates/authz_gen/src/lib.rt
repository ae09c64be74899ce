//! The filters of role-based access control that enforce authorization policies: each filter has the action of its
//! policies, and one policy a rule that can hold, which holds exactly where the rule does.
#![tactic(auto)]

mod conditions;
mod fields;
mod in_order;
mod laws;
mod lists;
mod needs_http;
mod operations;
mod policies;
mod rules;
mod sources;

pub use laws::filters_enforce;
pub use policies::{http_rbac, tcp_rbac};
