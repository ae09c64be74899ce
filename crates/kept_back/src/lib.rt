//! Which manifests no listener is built for yet, and the first place where it shows.
#![tactic(auto)]

mod fields;
mod items;
mod manifests;
mod policies;
mod words;

pub use manifests::not_yet;
pub use words::kept_words;
