// The filter chains of a port by what it speaks and its mutual TLS mode.
ghost use Rattle.std.specs.Prelude.{◌≡◌, ◌++◌, ◌∷◌, [], true, false, Some, None, codes, IfOk, OnOk};
ghost use Rattle.mesh_policy.specs.Connection as connection;
ghost use Rattle.envoy_types.specs.declared.chains.Transport.TheVariants as transport;
ghost use Rattle.chain_build.specs.Buildable.{IsBuildable};
ghost use Rattle.chain_build.specs.Chains as meaning;
ghost use Rattle.chain_build.specs.Filters.{body_on as body_of};
ghost use Rattle.chain_build.specs.Listener.{chains_at};

use crate::filters::body_on;
use envoy_types::{ChainMatch, FilterChain, Transport};
use mesh_policy::{MESH_PROTOCOLS, Mode, Protocol};
use mesh_select::Workload;
use mesh_text::{List, Memory, Text};
use std::alloc::Global;

// Adds the chains of a port, or of the ports that are not listed.
#[tactic(auto, unfolding(crate::specs::Chains::chains_on))]
pub fn push_chains(
    alloc: Global,
    chains: &mut List<FilterChain>,
    workload: &Workload,
    protocol: Protocol,
    mode: Mode,
    port: Option<u16>,
) -> Result<(), Memory>
    requires { IsBuildable workload.now }
    ensures { OnOk result (chains.new ≡ chains.old ++ chains_at workload.now protocol mode port) }
{
    match mode {
        Mode::Strict => chains.push(strict_chain(alloc, workload, protocol, port)?),
        Mode::Permissive => {
            chains.push(mutual_chain(alloc, workload, protocol, port)?)?;
            chains.push(plain_chain(alloc, workload, protocol, port)?)?;
            push_opaque(alloc, chains, workload, protocol, port)
        }
        Mode::Disable => chains.push(open_chain(alloc, workload, protocol, port)?),
    }
}

// Mutual TLS of every client.
fn strict_chain(
    alloc: Global,
    workload: &Workload,
    protocol: Protocol,
    port: Option<u16>,
) -> Result<FilterChain, Memory>
    requires { IsBuildable workload.now }
    ensures { IfOk result (λ c. c ≡ meaning.chain_for_port port (codes "-mtls") (Some transport.Tls) [] true
        (body_of protocol workload.now (meaning.cluster_of port))) }
{
    let matching = matching(port, Some(Transport::Tls), List::new(alloc));
    chain_for_port(alloc, workload, protocol, "-mtls", matching, true)
}

// Mutual TLS of the sidecars of the mesh.
fn mutual_chain(
    alloc: Global,
    workload: &Workload,
    protocol: Protocol,
    port: Option<u16>,
) -> Result<FilterChain, Memory>
    requires { IsBuildable workload.now }
    ensures { IfOk result (λ c. c ≡ meaning.chain_for_port port (codes "-mtls") (Some transport.Tls) connection.mesh_names true
        (body_of protocol workload.now (meaning.cluster_of port))) }
{
    let matching = matching(port, Some(Transport::Tls), mesh_names(alloc)?);
    chain_for_port(alloc, workload, protocol, "-mtls", matching, true)
}

// Plain text.
fn plain_chain(
    alloc: Global,
    workload: &Workload,
    protocol: Protocol,
    port: Option<u16>,
) -> Result<FilterChain, Memory>
    requires { IsBuildable workload.now }
    ensures { IfOk result (λ c. c ≡ meaning.chain_for_port port (codes "-plain") (Some transport.RawBuffer) [] false
        (body_of protocol workload.now (meaning.cluster_of port))) }
{
    let matching = matching(port, Some(Transport::RawBuffer), List::new(alloc));
    chain_for_port(alloc, workload, protocol, "-plain", matching, false)
}

// Adds the chain for TLS that no other chain takes, which only a TCP port has.
fn push_opaque(
    alloc: Global,
    chains: &mut List<FilterChain>,
    workload: &Workload,
    protocol: Protocol,
    port: Option<u16>,
) -> Result<(), Memory>
    requires { IsBuildable workload.now }
    ensures { OnOk result (chains.new
        ≡ chains.old ++ meaning.opaque_chains protocol port (body_of protocol workload.now (meaning.cluster_of port))) }
{
    match protocol {
        Protocol::Tcp => chains.push(opaque_chain(alloc, workload, protocol, port)?),
        Protocol::Http => Ok(()),
    }
}

// TLS that is passed on unread.
fn opaque_chain(
    alloc: Global,
    workload: &Workload,
    protocol: Protocol,
    port: Option<u16>,
) -> Result<FilterChain, Memory>
    requires { IsBuildable workload.now }
    ensures { IfOk result (λ c. c ≡ meaning.chain_for_port port (codes "-opaque") (Some transport.Tls) [] false
        (body_of protocol workload.now (meaning.cluster_of port))) }
{
    let matching = matching(port, Some(Transport::Tls), List::new(alloc));
    chain_for_port(alloc, workload, protocol, "-opaque", matching, false)
}

// What a port without mutual TLS takes.
fn open_chain(
    alloc: Global,
    workload: &Workload,
    protocol: Protocol,
    port: Option<u16>,
) -> Result<FilterChain, Memory>
    requires { IsBuildable workload.now }
    ensures { IfOk result (λ c. c ≡ meaning.chain_for_port port (codes "-plain") (meaning.open_transport protocol) [] false
        (body_of protocol workload.now (meaning.cluster_of port))) }
{
    let matching = matching(port, open_transport(protocol), List::new(alloc));
    chain_for_port(alloc, workload, protocol, "-plain", matching, false)
}

// A TCP port takes what comes, an HTTP port plain text.
fn open_transport(protocol: Protocol) -> Option<Transport>
    ensures { result ≡ meaning.open_transport protocol }
{
    match protocol {
        Protocol::Tcp => None,
        Protocol::Http => Some(Transport::RawBuffer),
    }
}

fn matching(port: Option<u16>, transport: Option<Transport>, alpn: List<Text>) -> ChainMatch
    ensures { result ≡ record { port = port; transport = transport; alpn = alpn } }
{
    ChainMatch {
        port,
        transport,
        alpn,
    }
}

// The application protocols by which a sidecar of the mesh makes itself known.
fn mesh_names(alloc: Global) -> Result<List<Text>, Memory>
    ensures { IfOk result (λ names. names ≡ connection.mesh_names) }
{
    let mut names = List::new(alloc);
    for name in &MESH_PROTOCOLS {
        names.push(Text::of(alloc, name)?)?;
    }
    Ok(names)
}

// A chain to the cluster of its port, with the filters of the workload.
#[tactic(auto, unfolding(crate::specs::Chains::chain_for_port))]
fn chain_for_port(
    alloc: Global,
    workload: &Workload,
    protocol: Protocol,
    ending: &str,
    matching: ChainMatch,
    mutual_tls: bool,
) -> Result<FilterChain, Memory>
    requires { IsBuildable workload.now }
    ensures { IfOk result (λ c. c ≡ meaning.chain_for_port matching.port ending.now matching.transport matching.alpn mutual_tls
        (body_of protocol workload.now (meaning.cluster_of matching.port))) }
{
    let name = chain_name(alloc, matching.port, ending)?;
    let cluster = cluster_of(alloc, matching.port)?;
    let body = body_on(alloc, protocol, workload, cluster)?;
    Ok(FilterChain {
        name,
        matching,
        mutual_tls,
        body,
    })
}

fn chain_name(alloc: Global, port: Option<u16>, ending: &str) -> Result<Text, Memory>
    ensures { IfOk result (λ name. name ≡ meaning.port_name port ++ ending.now) }
{
    match port {
        None => {
            let text = format!(in alloc; "any{ending}")?;
            Ok(Text::from_string(text))
        }
        Some(port) => {
            let text = format!(in alloc; "{port}{ending}")?;
            Ok(Text::from_string(text))
        }
    }
}

fn cluster_of(alloc: Global, port: Option<u16>) -> Result<Text, Memory>
    ensures { IfOk result (λ cluster. cluster ≡ meaning.cluster_of port) }
{
    match port {
        None => Text::of(alloc, "InboundPassthroughCluster"),
        Some(port) => {
            let text = format!(in alloc; "inbound|{port}||")?;
            Ok(Text::from_string(text))
        }
    }
}
