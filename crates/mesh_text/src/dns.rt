// Names of the domain name system, as Kubernetes takes them.
ghost use Rattle.std.specs.Prelude.{◌≡◌};
ghost use Rattle.std.specs.List.{list_all};
ghost use Rattle.mesh_text.specs.Dns.{is_label, is_name_byte, is_piece, is_subdomain};

/// Whether `s` is a DNS label in lower case (RFC 1035 section 2.3.1, with the first digit that RFC 1123
/// section 2.1 allows): 1 to 63 of `a` to `z`, `0` to `9` and `-`, not `-` at either end.
pub fn is_dns_label(s: &str) -> bool
    ensures { result ≡ is_label s.now }
{
    is_name_piece(s) && s.len() <= 63
}

/// Whether `s` is a DNS subdomain as Kubernetes names one: 1 to 253 bytes, pieces joined by `.`. A piece
/// is like a label, without a length limit of its own.
pub fn is_dns_subdomain(s: &str) -> bool
    ensures { result ≡ is_subdomain s.now }
{
    s.len() <= 253 && s.split('.').all(|piece| is_name_piece(piece))
}

fn is_name_piece(s: &str) -> bool
    ensures { result ≡ is_piece s.now }
{
    let bytes = s.as_bytes();
    if bytes.is_empty() || !all_name_bytes(bytes) {
        return false;
    }
    bytes[0] != b'-' && bytes[bytes.len() - 1] != b'-'
}

fn all_name_bytes(bytes: &[u8]) -> bool
    ensures { result ≡ list_all is_name_byte bytes.now }
{
    bytes
        .iter()
        .all(|c| matches!(*c, b'a'..=b'z' | b'0'..=b'9' | b'-'))
}
