//! The readers of policies: each answers the policy that a `spec` means, or the first of its faults in reading order
//! (Istio reference; docs/FORMATS.md has the forms).
#![tactic(auto)]

mod authorization;
mod both_listed;
mod condition_keys;
mod conditions;
mod jwt_rules;
mod key_sets;
mod labels;
mod operations;
mod peer;
mod ports;
mod request;
mod rules;
mod sources;
mod target_refs;
mod texts;
mod token_places;
mod values;
mod words;

pub use authorization::{read_authorization, read_authorization_at};
pub use labels::{Labels, read_labels};
pub use peer::{read_peer, read_peer_at};
pub use request::{read_request, read_request_at};
pub use texts::IsToken;
pub use words::{authorization_words, condition_key_words, peer_words, request_words, rule_words};
