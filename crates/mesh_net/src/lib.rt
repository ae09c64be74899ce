//! IP addresses and address blocks. A text is read exactly where the grammar of addresses has it, a block
//! holds exactly the addresses of its family with its prefix, and what is written is read back.
#![tactic(auto)]

mod address;
mod block;
mod cidr;
mod written;

pub use address::{IpAddr, parse_ip};
pub use block::parse_cidr;
pub use cidr::Cidr;
pub use written::write_ip;
