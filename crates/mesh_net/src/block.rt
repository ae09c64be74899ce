// The texts of address blocks.
ghost use Rattle.std.specs.Prelude.{◌≡◌, IfSome, Some};
ghost use Rattle.mesh_net.specs.declared.cidr.Cidr.{Cidr};
ghost use Rattle.mesh_net.specs.Block.{block_of, cut_block, whole_block, SpellsBlock};

use crate::{Cidr, IpAddr, parse_ip};
use mesh_text::decimal;

/// The block that `s` names: an address alone, which has its full length, or an address, `/` and a length
/// of at most 32 or 128 without leading zeros. None for every other text.
pub fn parse_cidr(s: &str) -> Option<Cidr>
    ensures value { result ≡ block_of s.now }
    ensures spelled { IfSome result (SpellsBlock s.now) }
    ensures only { (block : Cidr) → SpellsBlock s.now block → result ≡ Some block }
{
    read(s)
}

fn read(s: &str) -> Option<Cidr>
    ensures { result ≡ block_of s.now }
{
    match s.split_once('/') {
        Some((addr, len)) => cut(parse_ip(addr), decimal(len)),
        None => whole(parse_ip(s)),
    }
}

fn whole(addr: Option<IpAddr>) -> Option<Cidr>
    ensures { result ≡ whole_block addr }
{
    match addr {
        Some(ip) => Cidr::new(ip, ip.width()),
        None => None,
    }
}

fn cut(addr: Option<IpAddr>, len: Option<u16>) -> Option<Cidr>
    ensures { result ≡ cut_block addr len }
{
    match (addr, len) {
        (Some(ip), Some(bits)) => Cidr::new(ip, bits),
        _ => None,
    }
}
