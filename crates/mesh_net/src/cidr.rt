// Address blocks, and which addresses one holds.
ghost use Rattle.std.specs.Prelude.{◌≡◌, ◌/◌, ◌^◌, ◌≤◌, nat_le, true};
ghost use Rattle.mesh_net.specs.Address.{width};

use crate::IpAddr;

/// An address block (RFC 4632 section 3.1): the addresses of the family of `addr` that agree with it in
/// the first `len` bits. The other bits of `addr` don't count.
#[derive(Clone, Copy, Debug, PartialEq, Eq, Hash)]
pub struct Cidr {
    pub addr: IpAddr,
    pub len: u8,
    pub ghost fits: { nat_le len (width addr) ≡ true },
}

impl Cidr {
    ghost use Rattle.mesh_net.specs.Cidr.{block_with, in_network};

    /// The block of `addr` and `len`. None where `len` is more than the 32 or 128 bits of the family.
    pub fn new(addr: IpAddr, len: u16) -> Option<Cidr>
        ensures { result ≡ block_with addr len }
    {
        if len > addr.width() {
            return None;
        }
        Some(Cidr {
            addr,
            len: len as u8,
        })
    }

    pub fn contains(&self, ip: &IpAddr) -> bool
        ensures { result ≡ in_network self.now.addr self.now.len ip.now }
    {
        match (self.addr, *ip) {
            (IpAddr::V4(block), IpAddr::V4(other)) => {
                let rest = 32 - u32::from(self.len);
                shifted(u128::from(block), rest) == shifted(u128::from(other), rest)
            }
            (IpAddr::V6(block), IpAddr::V6(other)) => {
                let rest = 128 - u32::from(self.len);
                shifted(block, rest) == shifted(other, rest)
            }
            _ => false,
        }
    }
}

// Rust has no shift by the whole width, which a block of length 0 asks for.
fn shifted(number: u128, places: u32) -> u128
    requires { places ≤ 128 }
    ensures { result ≡ number / 2 ^ places }
{
    if places < 128 { number >> places } else { 0 }
}
