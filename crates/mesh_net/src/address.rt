// IP addresses: their values, and the texts that spell them.
ghost use Rattle.std.specs.Prelude.{◌≡◌, ℕ, ◌+◌, ◌*◌, IfSome, Some};
ghost use Rattle.std.specs.Int.Digits.{number_from_digits};
ghost use Rattle.std.specs.Net.Addr.{ipv4_octets, ipv6_segments};
ghost use Rattle.mesh_net.specs.declared.address.IpAddr.{IpAddr};
ghost use Rattle.mesh_net.specs.Address.{ip_of, width, Spells};

use std::net;

/// An address as one number, its first octet the highest.
#[derive(Clone, Copy, Debug, PartialEq, Eq, Hash)]
pub enum IpAddr {
    V4(u32),
    V6(u128),
}

impl IpAddr {
    /// The bits of the family: 32 or 128.
    pub fn width(&self) -> u16
        ensures { result ≡ width self.now }
    {
        match self {
            IpAddr::V4(_) => 32,
            IpAddr::V6(_) => 128,
        }
    }
}

/// The address that `s` spells: IPv4 as four decimals without leading zeros, or IPv6 in a form of RFC 4291
/// section 2.2, without a zone. None for every other text.
pub fn parse_ip(s: &str) -> Option<IpAddr>
    ensures value { result ≡ ip_of s.now }
    ensures spelled { IfSome result (Spells s.now) }
    ensures only { (ip : IpAddr) → Spells s.now ip → result ≡ Some ip }
{
    match s.parse::<net::IpAddr>() {
        Ok(net::IpAddr::V4(ip)) => Some(IpAddr::V4(v4_number(&ip))),
        Ok(net::IpAddr::V6(ip)) => Some(IpAddr::V6(v6_number(&ip))),
        Err(_) => None,
    }
}

fn v4_number(ip: &net::Ipv4Addr) -> u32
    ensures { result ≡ number_from_digits 256 (ipv4_octets ip.now) }
{
    let [a, b, c, d] = ip.octets();
    ((u32::from(a) * 256 + u32::from(b)) * 256 + u32::from(c)) * 256 + u32::from(d)
}

fn v6_number(ip: &net::Ipv6Addr) -> u128
    ensures { result ≡ number_from_digits 65536 (ipv6_segments ip.now) }
{
    let [a, b, c, d, e, f, g, h] = ip.segments();
    u128::from(four_groups(a, b, c, d)) * 0x1_0000_0000_0000_0000
        + u128::from(four_groups(e, f, g, h))
}

fn four_groups(a: u16, b: u16, c: u16, d: u16) -> u64
    ensures { result ≡ ((a * 65536 + b) * 65536 + c) * 65536 + d }
{
    ((u64::from(a) * 65536 + u64::from(b)) * 65536 + u64::from(c)) * 65536 + u64::from(d)
}
