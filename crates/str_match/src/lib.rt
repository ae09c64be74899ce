//! String forms of match values as matcher trees, each of which holds exactly where its pattern does.
#![tactic(auto)]

mod headers;
mod no_text;
mod paths;
mod server_name;

pub use headers::{header_tree, host_tree, method_tree};
pub use paths::path_tree;
pub use server_name::sni_tree;
