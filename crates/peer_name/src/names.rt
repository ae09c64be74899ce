// The parts of a peer's name.
ghost use Rattle.std.specs.Prelude.{◌≡◌, ◌<◌, ◌+◌, ◌^◌, option_map};
ghost use Rattle.std.specs.List.{list_all};
ghost use Rattle.std.specs.Option.{ForSome};
ghost use Rattle.mesh_policy.specs.PeerNames as name;
ghost use Rattle.mesh_policy.specs.PeerNames.{peer_of};
ghost use Rattle.peer_name.specs.Names.{StandsIn, parts_at};

use mesh_text::{is_dns_label, is_dns_subdomain};

/// Where the parts of a peer's name `spiffe://TRUST_DOMAIN/ns/NAMESPACE/sa/ACCOUNT` stand in it (SPIFFE ID, section 2; Istio,
/// "Security", on the identity of workloads).
#[derive(Clone, Copy, Debug, PartialEq, Eq)]
pub struct PeerName {
    pub trust: Span,
    pub namespace: Span,
    pub account: Span,
}

/// A part of a text by its bytes, from `start` up to before `end`.
#[derive(Clone, Copy, Debug, PartialEq, Eq)]
pub struct Span {
    pub start: usize,
    pub end: usize,
}

impl PeerName {
    /// The parts of a name, where it is well-formed: a trust domain of 1 to 255 of `a` to `z`, `0` to `9`, `.`, `-` and `_` that
    /// is not `ns`, a namespace that is a label of DNS, and an account that is a subdomain of DNS. None for every other text.
    pub fn parse(s: &str) -> Option<PeerName>
        ensures parts { option_map (parts_at s.now) result ≡ peer_of s.now }
        ensures spans { ForSome result (StandsIn s.now) }
    {
        let rest = s.strip_prefix("spiffe://")?;
        let (trust, rest) = rest.split_once('/')?;
        let rest = rest.strip_prefix("ns/")?;
        let (namespace, rest) = rest.split_once('/')?;
        let account = rest.strip_prefix("sa/")?;
        if !is_peer(trust, namespace, account) {
            return None;
        }
        Some(spans_of(trust.len(), namespace.len(), account.len()))
    }
}

// the spans of parts of these lengths
fn spans_of(trust: usize, namespace: usize, account: usize) -> PeerName
    requires { trust + namespace + account + 17 < 2 ^ 64 }
    ensures trust_start { result.trust.start ≡ 9 }
    ensures trust_end { result.trust.end ≡ result.trust.start + trust }
    ensures namespace_start { result.namespace.start ≡ result.trust.end + 4 }
    ensures namespace_end { result.namespace.end ≡ result.namespace.start + namespace }
    ensures account_start { result.account.start ≡ result.namespace.end + 4 }
    ensures account_end { result.account.end ≡ result.account.start + account }
{
    let trust = span_from(9, trust);
    let namespace = span_from(trust.end + 4, namespace);
    let account = span_from(namespace.end + 4, account);
    PeerName {
        trust,
        namespace,
        account,
    }
}

fn span_from(start: usize, length: usize) -> Span
    requires { start + length < 2 ^ 64 }
    ensures start { result.start ≡ start }
    ensures end { result.end ≡ start + length }
{
    Span {
        start,
        end: start + length,
    }
}

fn is_peer(trust: &str, namespace: &str, account: &str) -> bool
    ensures { result ≡ name.is_peer (record { trust = trust.now; namespace = namespace.now; account = account.now }) }
{
    is_trust_domain(trust) && is_dns_label(namespace) && is_dns_subdomain(account)
}

// 1 to 255 bytes, and not the word that stands before the namespace
fn is_trust_domain(s: &str) -> bool
    ensures { result ≡ name.is_trust_domain s.now }
{
    !s.is_empty() && s.len() <= 255 && all_trust_bytes(s.as_bytes()) && s != "ns"
}

fn all_trust_bytes(bytes: &[u8]) -> bool
    ensures { result ≡ list_all name.is_trust_byte bytes.now }
{
    bytes.iter().all(|c| matches!(*c, b'a'..=b'z' | b'0'..=b'9' | b'-' | b'.' | b'_'))
}
