// Listeners whole: their filter chains, and the filters of TCP and of HTTP chains.
use crate::access::Rbac;
use crate::authz::ExtAuthz;
use crate::jwt::JwtAuthn;
use mesh_text::{List, Text};

/// A listener (Envoy v3 API, `config.listener.v3.Listener`), as far as this profile uses it.
#[derive(Debug, Drop, PartialEq, Eq)]
pub struct Listener {
    pub name: Text,
    pub address: Text,
    pub port: u16,
    pub chains: List<FilterChain>,
}

/// A filter chain (`config.listener.v3.FilterChain`).
#[derive(Debug, Drop, PartialEq, Eq)]
pub struct FilterChain {
    pub name: Text,
    pub matching: ChainMatch,
    /// Whether it has the TLS socket that asks for the peer's certificate.
    pub mutual_tls: bool,
    pub body: ChainBody,
}

/// Which connections a chain is for (`config.listener.v3.FilterChainMatch`).
#[derive(Debug, Drop, PartialEq, Eq)]
pub struct ChainMatch {
    /// The destination port, from 1; None for every port that no chain names.
    pub port: Option<u16>,
    /// None for both, where no chain names the one.
    pub transport: Option<Transport>,
    /// Application protocols; the empty list for every connection that no chain names.
    pub alpn: List<Text>,
}

/// The transport protocol that the TLS inspector saw.
#[derive(Clone, Copy, Debug, PartialEq, Eq)]
pub enum Transport {
    RawBuffer,
    Tls,
}

/// What a chain does with its connections.
#[derive(Debug, Drop, PartialEq, Eq)]
pub enum ChainBody {
    /// Filters, and then the TCP proxy to a cluster.
    Tcp {
        filters: List<NetworkFilter>,
        cluster: Text,
    },
    /// The connection manager with its filters, which routes each request to a cluster.
    Http {
        filters: List<HttpFilter>,
        cluster: Text,
    },
}

/// A network filter before the TCP proxy.
#[derive(Debug, Drop, PartialEq, Eq)]
pub enum NetworkFilter {
    Rbac(Rbac),
    ExtAuthz(ExtAuthz),
}

/// An HTTP filter before the router.
#[derive(Debug, Drop, PartialEq, Eq)]
pub enum HttpFilter {
    Jwt(JwtAuthn),
    Rbac(Rbac),
    ExtAuthz(ExtAuthz),
}
