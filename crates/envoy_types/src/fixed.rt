//! The fixed texts of the listener's JSON, which its forms cite, each tied to its letters by a law.
ghost use Rattle.std.specs.Prelude.{◌≡◌, codes};

/// `config.core.v3.TrafficDirection`: towards the workload.
pub const INBOUND_DIRECTION: &str = "INBOUND";

/// `transport_protocol` of TLS (Envoy reference, FilterChainMatch).
pub const TLS: &str = "tls";

/// `transport_protocol` of plain text.
pub const RAW_BUFFER: &str = "raw_buffer";

/// The secret of the workload's own certificate (Istio, secret discovery).
pub const OWN_CERTIFICATE: &str = "default";

/// The secret of the mesh's root certificates.
pub const MESH_ROOTS: &str = "ROOTCA";

/// `config.route.v3.VirtualHost`: every authority.
pub const ALL_DOMAINS: &str = "*";

/// The one virtual host of a chain.
pub const INBOUND_HOST: &str = "inbound";

/// `config.route.v3.RouteMatch`: the beginning of every path.
pub const ALL_PATHS: &str = "/";

/// `stat_prefix` of the network filters.
pub const TCP_PREFIX: &str = "tcp.";

/// `config.rbac.v3.RBAC.Action`.
pub const ALLOW: &str = "ALLOW";

/// `config.rbac.v3.RBAC.Action`.
pub const DENY: &str = "DENY";

/// `config.rbac.v3.RBAC.Action`.
pub const LOG: &str = "LOG";

/// The metadata key under which the token filter leaves the claims.
pub const PAYLOAD: &str = "payload";

/// How long an authorizer may take (Protocol Buffers, "JSON Mapping", `Duration`).
pub const ANSWER_TIME: &str = "600s";

/// `config.core.v3.ApiVersion`.
pub const API_VERSION: &str = "V3";

/// The cluster that key sets are fetched from.
pub const KEYS_CLUSTER: &str = "jwks";

/// How long a key set may take.
pub const KEYS_TIME: &str = "5s";

/// A law: the fixed texts of a listener, its chains and routes. The call does nothing.
pub fn listener_texts()
    ensures inbound_direction { INBOUND_DIRECTION.now ≡ codes "INBOUND" }
    ensures tls { TLS.now ≡ codes "tls" }
    ensures raw_buffer { RAW_BUFFER.now ≡ codes "raw_buffer" }
    ensures own_certificate { OWN_CERTIFICATE.now ≡ codes "default" }
    ensures mesh_roots { MESH_ROOTS.now ≡ codes "ROOTCA" }
    ensures all_domains { ALL_DOMAINS.now ≡ codes "*" }
    ensures inbound_host { INBOUND_HOST.now ≡ codes "inbound" }
    ensures all_paths { ALL_PATHS.now ≡ codes "/" }
{}

/// A law: the fixed texts of filters. The call does nothing.
pub fn filter_texts()
    ensures tcp_prefix { TCP_PREFIX.now ≡ codes "tcp." }
    ensures allow { ALLOW.now ≡ codes "ALLOW" }
    ensures deny { DENY.now ≡ codes "DENY" }
    ensures log { LOG.now ≡ codes "LOG" }
    ensures payload { PAYLOAD.now ≡ codes "payload" }
    ensures answer_time { ANSWER_TIME.now ≡ codes "600s" }
    ensures api_version { API_VERSION.now ≡ codes "V3" }
    ensures keys_cluster { KEYS_CLUSTER.now ≡ codes "jwks" }
    ensures keys_time { KEYS_TIME.now ≡ codes "5s" }
{}
