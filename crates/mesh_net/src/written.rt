// Addresses written as text.
ghost use Rattle.std.specs.Prelude.{◌≡◌, ◌<◌, IfOk, Some, string_bytes};
ghost use Rattle.mesh_net.specs.declared.address.IpAddr.TheVariants.{V4, V6};
ghost use Rattle.mesh_net.specs.Address.{ip_of};
ghost use Rattle.mesh_net.specs.Written.{group_at, hex_text, ip_text};

use crate::IpAddr;
use mesh_text::{Memory, Text};
use std::alloc::{AllocError, Global};
use std::net;

/// The address as text: IPv4 as four decimals, IPv6 as eight groups of lower-case hexadecimal digits
/// without leading zeros, none of them left out.
pub fn write_ip(alloc: Global, ip: &IpAddr) -> Result<Text, Memory>
    ensures text { IfOk result (λ t. t ≡ ip_text ip.now) }
    ensures read_back { IfOk result (λ t. ip_of t ≡ Some ip.now) }
{
    match ip {
        IpAddr::V4(number) => dotted(alloc, *number),
        IpAddr::V6(number) => colon_hex(alloc, *number),
    }
}

fn dotted(alloc: Global, number: u32) -> Result<Text, Memory>
    ensures text { IfOk result (λ t. t ≡ ip_text (V4 number)) }
    ensures read_back { IfOk result (λ t. ip_of t ≡ Some (V4 number)) }
{
    let ip = net::Ipv4Addr::new(
        (number / 0x100_0000) as u8,
        (number / 0x1_0000 % 256) as u8,
        (number / 0x100 % 256) as u8,
        (number % 256) as u8,
    );
    Ok(Text::from_string(format!(in alloc; "{ip}")?))
}

fn colon_hex(alloc: Global, number: u128) -> Result<Text, Memory>
    ensures text { IfOk result (λ t. t ≡ ip_text (V6 number)) }
    ensures read_back { IfOk result (λ t. ip_of t ≡ Some (V6 number)) }
{
    Ok(Text::from_string(eight_groups(alloc, number)?))
}

fn eight_groups(alloc: Global, number: u128) -> Result<String, AllocError>
    ensures { IfOk result (λ s. string_bytes s ≡ ip_text (V6 number)) }
{
    let mut text = hex(alloc, group(number, 7))?;
    let mut left = 7;
    while left > 0 {
        left -= 1;
        text.push_str(":")?;
        text.push_str(hex(alloc, group(number, left))?.as_str())?;
    }
    Ok(text)
}

fn hex(alloc: Global, group: u16) -> Result<String, AllocError>
    ensures { IfOk result (λ s. string_bytes s ≡ hex_text group) }
{
    format!(in alloc; "{group:x}")
}

// The groups are counted from the lowest.
fn group(number: u128, place: u32) -> u16
    requires { place < 8 }
    ensures { result ≡ group_at number place }
{
    ((number >> (16 * place)) & 0xffff) as u16
}
