//! The commands of `mesh`: from the words and the input to what is written, with each status and its cause.
#![tactic(auto)]

mod answer;
mod counts;
mod notes;
mod pieces;
mod pod_name;
mod program;
mod refusal;
mod selection;
mod text;
mod words;

pub use program::run;
pub use refusal::Status;
