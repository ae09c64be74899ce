//! The JSON of string matchers, leaves and matcher trees, written and read (Envoy v3 API reference; docs/FORMATS.md has the
//! forms), and the words by which every part of a listener is written and read. No field that has its default is written, and
//! the members of each object stand in byte order of their names. A reader answers the value, or its first fault in reading
//! order.
#![tactic(auto)]

mod alternatives;
mod blocks;
mod fields;
mod form;
mod headers;
mod known;
mod laws;
mod permission;
mod principal;
mod strings;
mod tree_reader;
mod trees;
mod values;

pub use alternatives::{
    AnyPort, MOST_ENTRIES, Port, TrueAlone, count_written, fixed, fixed_field, named,
    number_within, one_of, plain_config,
};
pub use fields::{Fields, config_of, named_value, number_value, sole_field, text_value};
pub use form::{Form, Word};
pub use headers::LowerToken;
pub use laws::written_reads_back;
pub use strings::{StringForm, string_from_value, string_to_value};
pub use tree_reader::{TreeListForm, tree_from_value};
pub use trees::{tree_list_value, tree_to_value};
pub use values::{SegmentForm, segment_value};
