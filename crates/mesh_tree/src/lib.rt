//! Matcher trees over any kind of leaf. A tree is joined by and, or and not in one exact shape, and judging it
//! gives the meaning of these words over what its leaves judge.
#![tactic(auto)]

mod copies;
mod joined;
mod judge;
mod leaf;
mod size;
mod tree;

pub use leaf::Leaf;
pub use tree::{Node, Tree};
