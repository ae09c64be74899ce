//! Lines of calls, for the programs that run examples: a line is the name of a call and its arguments in JSON, with commas
//! between them, and is printed with the answer behind it. `docs/EXAMPLES.md` has the forms of arguments.
#![tactic(auto)]

mod call;
mod lines;
mod parts;
mod requests;
mod shown;
mod stop;

pub use call::{
    Call, is_in, items_of, number_in, numbers_in, numbers_of, text_in, text_of, texts_of,
};
pub use lines::{Calls, MOST_BYTES, show_lines};
pub use parts::joined;
pub use requests::request_of;
pub use shown::{none, quoted, refused, truth};
pub use stop::Stop;
