// A connection to judge.
use crate::{Answer, Request, TokenVerdict};
use mesh_net::IpAddr;
use mesh_text::{List, Text};

/// One connection to judge, with its request if it has one, and with what others found out of it: which tokens are
/// valid, and what authorizers answer.
#[derive(Debug, Drop, PartialEq, Eq)]
pub struct Case {
    /// Where the connection comes from.
    pub source: IpAddr,
    /// The client's own address, before proxies.
    pub remote: IpAddr,
    pub destination: IpAddr,
    /// The destination port, from 1 to 65,535.
    pub port: u16,
    /// None for plaintext.
    pub tls: Option<Tls>,
    /// None for a connection that carries no HTTP request.
    pub request: Option<Request>,
    /// The tokens that are valid, each for a question. Of two for one question the first counts.
    pub verdicts: List<TokenVerdict>,
    /// The answers of authorizers. Of two of one cluster the first counts.
    pub answers: List<Answer>,
}

/// What TLS gave of a connection.
#[derive(Debug, Drop, PartialEq, Eq)]
pub struct Tls {
    /// The peer's verified name (a SPIFFE ID), if it showed a certificate of the mesh.
    pub peer: Option<Text>,
    /// The server name that the client asked for (RFC 6066, section 3).
    pub sni: Option<Text>,
    /// The application protocols that the client offered, in its order (RFC 7301).
    pub alpn: List<Text>,
}
