// The conditions of rules.
use mesh_net::Cidr;
use mesh_text::{List, Text};

/// A condition of a rule (Istio reference, Condition; "Authorization Policy Conditions"). It holds where one of
/// `values` matches the attribute of its key, or none is written, and none of `not_values` matches. One list at least
/// has an entry.
#[derive(Debug, Drop, PartialEq, Eq)]
pub enum Condition {
    /// An attribute that is a text or a list of texts.
    Words {
        key: TextKey,
        values: List<Text>,
        not_values: List<Text>,
    },
    /// An address.
    Blocks {
        key: BlockKey,
        values: List<Cidr>,
        not_values: List<Cidr>,
    },
    /// `destination.port`: ports from 1 to 65,535.
    Ports {
        values: List<u16>,
        not_values: List<u16>,
    },
}

/// The keys of attributes that are texts.
#[derive(Debug, Drop, PartialEq, Eq)]
pub enum TextKey {
    /// `source.principal`: the peer's name without `spiffe://`.
    SourcePrincipal,
    /// `source.namespace`: the namespace in the peer's name.
    SourceNamespace,
    /// `connection.sni`: the server name that was asked for.
    Sni,
    /// `request.headers[NAME]`: a header by its name, in lower case.
    Header(Text),
    /// `request.auth.principal`: issuer and subject of the token, as `iss/sub`.
    AuthPrincipal,
    /// `request.auth.audiences`: the claim `aud`.
    Audiences,
    /// `request.auth.presenter`: the claim `azp`.
    Presenter,
    /// `request.auth.claims[A][B]`: the claim at that path of names, one at least.
    Claim(List<Text>),
}

/// The keys of attributes that are addresses.
#[derive(Clone, Copy, Debug, PartialEq, Eq)]
pub enum BlockKey {
    /// `source.ip`: the address that the connection comes from.
    SourceIp,
    /// `remote.ip`: the address of the client, before proxies.
    RemoteIp,
    /// `destination.ip`
    DestinationIp,
}
