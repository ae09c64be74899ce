// Which filter chain a connection goes to.
ghost use Rattle.std.specs.Prelude.{◌≡◌, ◌&&◌};
ghost use Rattle.std.specs.List.{list_any, position_or_len, slice_get};
ghost use Rattle.std.specs.Option.{option_copied};
ghost use Rattle.envoy_types.specs.Chosen as chosen;
ghost use Rattle.envoy_eval.specs.Chains as left;

use envoy_types::{ChainMatch, FilterChain, Listener, Transport};
use mesh_policy::{Case, Tls};
use mesh_text::Text;

/// The position of the filter chain that the connection goes to (Envoy v3 API, `config.listener.v3.FilterChainMatch`). None
/// where the chains are pruned to none, and the connection is closed.
pub fn choose(listener: &Listener, case: &Case) -> Option<usize>
    ensures { result ≡ chosen.chosen listener.now case.now }
{
    let chains = listener.chains.as_slice();
    let port = port_left(chains, case.port);
    let transport = transport_left(chains, port, transport_of(case.tls.as_ref()));
    let name = name_left(chains, port, transport, offered(case.tls.as_ref()));
    first_left(chains, port, transport, name)
}

// the port that the chains left have in common
fn port_left(chains: &[FilterChain], port: u16) -> Option<u16>
    ensures { result ≡ left.port_left chains.now port }
{
    if one_names_port(chains, port) {
        Some(port)
    } else {
        None
    }
}

fn one_names_port(chains: &[FilterChain], port: u16) -> bool
    ensures { result ≡ list_any (λ c. chosen.names_port port c.matching) chains.now }
{
    chains.iter().any(|chain| names_port(port, &chain.matching))
}

// the transport protocol that they have in common
fn transport_left(
    chains: &[FilterChain],
    port: Option<u16>,
    transport: Transport,
) -> Option<Transport>
    ensures { result ≡ left.transport_left chains.now port transport }
{
    if one_names_transport(chains, port, transport) {
        Some(transport)
    } else {
        None
    }
}

fn one_names_transport(chains: &[FilterChain], port: Option<u16>, transport: Transport) -> bool
    ensures { result ≡ list_any (λ c. left.has_port port c.matching && chosen.names_transport transport c.matching) chains.now }
{
    chains.iter().any(|chain| has_port(port, &chain.matching)
        && names_transport(transport, &chain.matching))
}

// the application protocol that is agreed on
fn name_left<'a>(
    chains: &[FilterChain],
    port: Option<u16>,
    transport: Option<Transport>,
    names: &'a [Text],
) -> Option<&'a str>
    ensures { option_copied result ≡ left.name_left chains.now port transport names.now }
{
    text_at(names, first_agreed(chains, port, transport, names))
}

fn text_at(names: &[Text], position: usize) -> Option<&str>
    ensures { option_copied result ≡ slice_get names.now position }
{
    match names.get(position) {
        None => None,
        Some(name) => Some(name.as_str()),
    }
}

// Each chain that is left cuts the names down to those in front of the first that it lists, so it is looked at once.
fn first_agreed(
    chains: &[FilterChain],
    port: Option<u16>,
    transport: Option<Transport>,
    names: &[Text],
) -> usize
    ensures { result ≡ left.first_agreed chains.now port transport names.now }
{
    let mut first = names.len();
    for chain in chains {
        first = first_listed(&names[..first], port, transport, &chain.matching);
    }
    first
}

// the length where it lists none, or isn't left
fn first_listed(
    names: &[Text],
    port: Option<u16>,
    transport: Option<Transport>,
    matching: &ChainMatch,
) -> usize
    ensures { result ≡ position_or_len (λ name. left.is_open port transport matching.now && chosen.lists_name name matching.now) names.now }
{
    if is_open(port, transport, matching) {
        first_in(names, matching)
    } else {
        names.len()
    }
}

fn first_in(names: &[Text], matching: &ChainMatch) -> usize
    ensures { result ≡ position_or_len (λ name. chosen.lists_name name matching.now) names.now }
{
    for (at, name) in names.iter().enumerate() {
        if lists_name(name, matching) {
            return at;
        }
    }
    names.len()
}

fn first_left(
    chains: &[FilterChain],
    port: Option<u16>,
    transport: Option<Transport>,
    name: Option<&str>,
) -> Option<usize>
    ensures { result ≡ left.first_left chains.now port transport (option_copied name.entry) }
{
    chains.iter().position(|chain| is_open(port, transport, &chain.matching)
        && has_name(name, &chain.matching))
}

// ---- the tests of a chain

fn is_open(port: Option<u16>, transport: Option<Transport>, matching: &ChainMatch) -> bool
    ensures { result ≡ left.is_open port transport matching.now }
{
    has_port(port, matching) && has_transport(transport, matching)
}

fn has_port(port: Option<u16>, matching: &ChainMatch) -> bool
    ensures { result ≡ left.has_port port matching.now }
{
    match port {
        None => matching.port.is_none(),
        Some(port) => names_port(port, matching),
    }
}

fn names_port(port: u16, matching: &ChainMatch) -> bool
    ensures { result ≡ chosen.names_port port matching.now }
{
    match matching.port {
        None => false,
        Some(named) => named == port,
    }
}

fn has_transport(transport: Option<Transport>, matching: &ChainMatch) -> bool
    ensures { result ≡ left.has_transport transport matching.now }
{
    match transport {
        None => matching.transport.is_none(),
        Some(transport) => names_transport(transport, matching),
    }
}

fn names_transport(transport: Transport, matching: &ChainMatch) -> bool
    ensures { result ≡ chosen.names_transport transport matching.now }
{
    match matching.transport {
        None => false,
        Some(named) => same_transport(named, transport),
    }
}

fn same_transport(first: Transport, second: Transport) -> bool
    ensures { result ≡ chosen.same_transport first second }
{
    match first {
        Transport::RawBuffer => matches!(second, Transport::RawBuffer),
        Transport::Tls => matches!(second, Transport::Tls),
    }
}

fn has_name(name: Option<&str>, matching: &ChainMatch) -> bool
    ensures { result ≡ left.has_name (option_copied name.entry) matching.now }
{
    match name {
        None => matching.alpn.is_empty(),
        Some(name) => lists_name(name, matching),
    }
}

fn lists_name(name: &str, matching: &ChainMatch) -> bool
    ensures { result ≡ chosen.lists_name name.now matching.now }
{
    matching.alpn.iter().any(|listed| name == listed.as_str())
}

// ---- what the connection shows

fn transport_of(tls: Option<&Tls>) -> Transport
    ensures { result ≡ chosen.transport_of (option_copied tls.entry) }
{
    match tls {
        None => Transport::RawBuffer,
        Some(_) => Transport::Tls,
    }
}

fn offered(tls: Option<&Tls>) -> &[Text]
    ensures { result.now ≡ chosen.offered (option_copied tls.entry) }
{
    match tls {
        None => &[],
        Some(tls) => tls.alpn.as_slice(),
    }
}
