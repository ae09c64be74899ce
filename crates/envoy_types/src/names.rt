// The names of filters and sockets, and the type URLs of their configurations.
ghost use Rattle.std.specs.Prelude.{◌≡◌, codes};

/// The listener filter that restores the original destination.
pub const ORIGINAL_DST_NAME: &str = "envoy.filters.listener.original_dst";

/// The type URL of its configuration.
pub const ORIGINAL_DST_TYPE: &str =
    "type.googleapis.com/envoy.extensions.filters.listener.original_dst.v3.OriginalDst";

/// The listener filter that tells TLS from plain text, and reads server name and application protocols.
pub const TLS_INSPECTOR_NAME: &str = "envoy.filters.listener.tls_inspector";

/// The type URL of its configuration.
pub const TLS_INSPECTOR_TYPE: &str =
    "type.googleapis.com/envoy.extensions.filters.listener.tls_inspector.v3.TlsInspector";

/// The transport socket of TLS.
pub const TLS_SOCKET_NAME: &str = "envoy.transport_sockets.tls";

/// The type URL of its configuration.
pub const TLS_SOCKET_TYPE: &str =
    "type.googleapis.com/envoy.extensions.transport_sockets.tls.v3.DownstreamTlsContext";

/// The network filter that proxies TCP.
pub const TCP_PROXY_NAME: &str = "envoy.filters.network.tcp_proxy";

/// The type URL of its configuration.
pub const TCP_PROXY_TYPE: &str =
    "type.googleapis.com/envoy.extensions.filters.network.tcp_proxy.v3.TcpProxy";

/// The network filter of role-based access control.
pub const NETWORK_RBAC_NAME: &str = "envoy.filters.network.rbac";

/// The type URL of its configuration.
pub const NETWORK_RBAC_TYPE: &str =
    "type.googleapis.com/envoy.extensions.filters.network.rbac.v3.RBAC";

/// The network filter that asks an external authorizer.
pub const NETWORK_AUTHZ_NAME: &str = "envoy.filters.network.ext_authz";

/// The type URL of its configuration.
pub const NETWORK_AUTHZ_TYPE: &str =
    "type.googleapis.com/envoy.extensions.filters.network.ext_authz.v3.ExtAuthz";

/// The network filter that reads HTTP.
pub const HTTP_MANAGER_NAME: &str = "envoy.filters.network.http_connection_manager";

/// The type URL of its configuration.
pub const HTTP_MANAGER_TYPE: &str =
    "type.googleapis.com/envoy.extensions.filters.network.http_connection_manager.v3.HttpConnectionManager";

/// The HTTP filter that routes requests.
pub const ROUTER_NAME: &str = "envoy.filters.http.router";

/// The type URL of its configuration.
pub const ROUTER_TYPE: &str = "type.googleapis.com/envoy.extensions.filters.http.router.v3.Router";

/// The HTTP filter of role-based access control.
pub const HTTP_RBAC_NAME: &str = "envoy.filters.http.rbac";

/// The type URL of its configuration.
pub const HTTP_RBAC_TYPE: &str = "type.googleapis.com/envoy.extensions.filters.http.rbac.v3.RBAC";

/// The HTTP filter that asks an external authorizer.
pub const HTTP_AUTHZ_NAME: &str = "envoy.filters.http.ext_authz";

/// The type URL of its configuration.
pub const HTTP_AUTHZ_TYPE: &str =
    "type.googleapis.com/envoy.extensions.filters.http.ext_authz.v3.ExtAuthz";

/// The HTTP filter that judges tokens.
pub const JWT_NAME: &str = "envoy.filters.http.jwt_authn";

/// The type URL of its configuration.
pub const JWT_TYPE: &str =
    "type.googleapis.com/envoy.extensions.filters.http.jwt_authn.v3.JwtAuthentication";

/// The matcher of paths by templates.
pub const URI_TEMPLATE_NAME: &str = "envoy.path.match.uri_template.uri_template_matcher";

/// The type URL of its configuration.
pub const URI_TEMPLATE_TYPE: &str =
    "type.googleapis.com/envoy.extensions.path.match.uri_template.v3.UriTemplateMatchConfig";

/// A law: these words are the texts that Envoy's reference has. The call does nothing.
pub fn filter_words()
    ensures original_dst_name { ORIGINAL_DST_NAME.now ≡ codes "envoy.filters.listener.original_dst" }
    ensures original_dst_type { ORIGINAL_DST_TYPE.now ≡ codes "type.googleapis.com/envoy.extensions.filters.listener.original_dst.v3.OriginalDst" }
    ensures tls_inspector_name { TLS_INSPECTOR_NAME.now ≡ codes "envoy.filters.listener.tls_inspector" }
    ensures tls_inspector_type { TLS_INSPECTOR_TYPE.now ≡ codes "type.googleapis.com/envoy.extensions.filters.listener.tls_inspector.v3.TlsInspector" }
    ensures tls_socket_name { TLS_SOCKET_NAME.now ≡ codes "envoy.transport_sockets.tls" }
    ensures tls_socket_type { TLS_SOCKET_TYPE.now ≡ codes "type.googleapis.com/envoy.extensions.transport_sockets.tls.v3.DownstreamTlsContext" }
    ensures tcp_proxy_name { TCP_PROXY_NAME.now ≡ codes "envoy.filters.network.tcp_proxy" }
    ensures tcp_proxy_type { TCP_PROXY_TYPE.now ≡ codes "type.googleapis.com/envoy.extensions.filters.network.tcp_proxy.v3.TcpProxy" }
    ensures network_rbac_name { NETWORK_RBAC_NAME.now ≡ codes "envoy.filters.network.rbac" }
    ensures network_rbac_type { NETWORK_RBAC_TYPE.now ≡ codes "type.googleapis.com/envoy.extensions.filters.network.rbac.v3.RBAC" }
    ensures network_authz_name { NETWORK_AUTHZ_NAME.now ≡ codes "envoy.filters.network.ext_authz" }
    ensures network_authz_type { NETWORK_AUTHZ_TYPE.now ≡ codes "type.googleapis.com/envoy.extensions.filters.network.ext_authz.v3.ExtAuthz" }
    ensures http_manager_name { HTTP_MANAGER_NAME.now ≡ codes "envoy.filters.network.http_connection_manager" }
    ensures http_manager_type { HTTP_MANAGER_TYPE.now ≡ codes "type.googleapis.com/envoy.extensions.filters.network.http_connection_manager.v3.HttpConnectionManager" }
    ensures router_name { ROUTER_NAME.now ≡ codes "envoy.filters.http.router" }
    ensures router_type { ROUTER_TYPE.now ≡ codes "type.googleapis.com/envoy.extensions.filters.http.router.v3.Router" }
    ensures http_rbac_name { HTTP_RBAC_NAME.now ≡ codes "envoy.filters.http.rbac" }
    ensures http_rbac_type { HTTP_RBAC_TYPE.now ≡ codes "type.googleapis.com/envoy.extensions.filters.http.rbac.v3.RBAC" }
    ensures http_authz_name { HTTP_AUTHZ_NAME.now ≡ codes "envoy.filters.http.ext_authz" }
    ensures http_authz_type { HTTP_AUTHZ_TYPE.now ≡ codes "type.googleapis.com/envoy.extensions.filters.http.ext_authz.v3.ExtAuthz" }
    ensures jwt_name { JWT_NAME.now ≡ codes "envoy.filters.http.jwt_authn" }
    ensures jwt_type { JWT_TYPE.now ≡ codes "type.googleapis.com/envoy.extensions.filters.http.jwt_authn.v3.JwtAuthentication" }
    ensures uri_template_name { URI_TEMPLATE_NAME.now ≡ codes "envoy.path.match.uri_template.uri_template_matcher" }
    ensures uri_template_type { URI_TEMPLATE_TYPE.now ≡ codes "type.googleapis.com/envoy.extensions.path.match.uri_template.v3.UriTemplateMatchConfig" }
{}
