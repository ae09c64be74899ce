//! Owned texts and lists that contracts see as plain lists, and tests of texts. Each test is its
//! definition on lists of bytes, and takes no memory.
#![tactic(auto)]

mod boxed;
mod dns;
mod folded;
mod list;
mod memory;
mod number;
mod parts;
mod text;
mod time;
mod token;

pub use boxed::Boxed;
pub use dns::{is_dns_label, is_dns_subdomain};
pub use folded::{contains_fold, eq_fold, is_prefix_fold, is_suffix_fold};
pub use list::List;
pub use memory::Memory;
pub use number::decimal;
pub use parts::{contains, is_prefix, is_suffix};
pub use text::Text;
pub use time::is_time;
pub use token::is_token;
