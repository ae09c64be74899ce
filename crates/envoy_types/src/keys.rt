//! The keys of the listener's JSON (Envoy v3 API reference), which its forms cite, each tied to its letters by a law.
ghost use Rattle.std.specs.Prelude.{◌≡◌, codes};

/// The name of a listener, a chain, a filter, a secret or a header; the field `name` of their messages.
pub const NAME: &str = "name";

/// The configuration of a filter or a socket, a `google.protobuf.Any`.
pub const TYPED_CONFIG: &str = "typed_config";

/// The type URL of a configuration (Protocol Buffers, "JSON Mapping", `Any`).
pub const TYPE: &str = "@type";

/// `config.listener.v3.Listener` and `config.core.v3.SocketAddress`: where connections are taken.
pub const ADDRESS: &str = "address";

/// `config.core.v3.Address`: an address and a port.
pub const SOCKET_ADDRESS: &str = "socket_address";

/// `config.core.v3.SocketAddress`: the port.
pub const PORT_VALUE: &str = "port_value";

/// `config.listener.v3.Listener`: its filter chains.
pub const FILTER_CHAINS: &str = "filter_chains";

/// `config.listener.v3.Listener`: the filters before a chain is chosen.
pub const LISTENER_FILTERS: &str = "listener_filters";

/// `config.listener.v3.Listener`: from which side the connections come.
pub const TRAFFIC_DIRECTION: &str = "traffic_direction";

/// `config.listener.v3.FilterChain`: the connections that it is for.
pub const FILTER_CHAIN_MATCH: &str = "filter_chain_match";

/// `config.listener.v3.FilterChain`: its network filters.
pub const FILTERS: &str = "filters";

/// `config.listener.v3.FilterChain`: its TLS socket.
pub const TRANSPORT_SOCKET: &str = "transport_socket";

/// `config.listener.v3.FilterChainMatch`: the names of ALPN.
pub const APPLICATION_PROTOCOLS: &str = "application_protocols";

/// `config.listener.v3.FilterChainMatch` and `config.rbac.v3.Permission`: the port.
pub const DESTINATION_PORT: &str = "destination_port";

/// `config.listener.v3.FilterChainMatch`: TLS, or plain text.
pub const TRANSPORT_PROTOCOL: &str = "transport_protocol";

/// `DownstreamTlsContext`: its certificates.
pub const COMMON_TLS_CONTEXT: &str = "common_tls_context";

/// `DownstreamTlsContext`: whether the peer has to show a certificate.
pub const REQUIRE_CLIENT_CERTIFICATE: &str = "require_client_certificate";

/// `CommonTlsContext`: the secrets of its own certificates.
pub const TLS_CERTIFICATES: &str = "tls_certificate_sds_secret_configs";

/// `CommonTlsContext`: the secret of the roots that it trusts.
pub const VALIDATION_CONTEXT: &str = "validation_context_sds_secret_config";

/// `TcpProxy`, `RouteAction` and `config.core.v3.HttpUri`: the cluster.
pub const CLUSTER: &str = "cluster";

/// What stands in front of the names of statistics, in each network filter.
pub const STAT_PREFIX: &str = "stat_prefix";

/// `HttpConnectionManager`: its filters.
pub const HTTP_FILTERS: &str = "http_filters";

/// `HttpConnectionManager`: its routes.
pub const ROUTE_CONFIG: &str = "route_config";

/// `config.route.v3.RouteConfiguration`: its hosts.
pub const VIRTUAL_HOSTS: &str = "virtual_hosts";

/// `config.route.v3.VirtualHost`: the authorities that it is for.
pub const DOMAINS: &str = "domains";

/// `config.route.v3.VirtualHost`: its routes.
pub const ROUTES: &str = "routes";

/// `config.route.v3.Route` and `RequirementRule`: the requests that it is for.
pub const MATCH: &str = "match";

/// `config.route.v3.Route`: where they go.
pub const ROUTE: &str = "route";

/// `config.route.v3.RouteMatch` and `type.matcher.v3.StringMatcher`: how a text begins.
pub const PREFIX: &str = "prefix";

/// The rules of an RBAC filter or of the token filter, and the parts of `Permission.Set`.
pub const RULES: &str = "rules";

/// The rules of an RBAC filter that refuse nothing.
pub const SHADOW_RULES: &str = "shadow_rules";

/// What stands in front of the metadata key under which they tell the policy that holds.
pub const SHADOW_PREFIX: &str = "shadow_rules_stat_prefix";

/// `config.rbac.v3.RBAC`: what a policy that holds does.
pub const ACTION: &str = "action";

/// `config.rbac.v3.RBAC`: its policies by their names.
pub const POLICIES: &str = "policies";

/// `config.rbac.v3.Policy`: what is asked for.
pub const PERMISSIONS: &str = "permissions";

/// `config.rbac.v3.Policy`: who asks.
pub const PRINCIPALS: &str = "principals";

/// `Permission` and `Principal`: everything.
pub const ANY: &str = "any";

/// `Permission`: all of these.
pub const AND_RULES: &str = "and_rules";

/// `Permission`: one of these.
pub const OR_RULES: &str = "or_rules";

/// `Permission`: not this one.
pub const NOT_RULE: &str = "not_rule";

/// `Principal`: all of these.
pub const AND_IDS: &str = "and_ids";

/// `Principal`: one of these.
pub const OR_IDS: &str = "or_ids";

/// `Principal.Set`: its parts.
pub const IDS: &str = "ids";

/// `Principal`: not this one.
pub const NOT_ID: &str = "not_id";

/// `Permission` and `Principal`: a header of the request.
pub const HEADER: &str = "header";

/// `Permission`: the path of the request without its query.
pub const URL_PATH: &str = "url_path";

/// `type.matcher.v3.PathMatcher`: the path; `type.matcher.v3.MetadataMatcher`: the keys down to a value.
pub const PATH: &str = "path";

/// `Permission`: the path of the request by a template.
pub const URI_TEMPLATE: &str = "uri_template";

/// `extensions.path.match.uri_template.v3.UriTemplateMatchConfig`: the template.
pub const PATH_TEMPLATE: &str = "path_template";

/// `Permission`: the destination address.
pub const DESTINATION_IP: &str = "destination_ip";

/// `Permission`: the server name that the client asks for.
pub const SERVER_NAME: &str = "requested_server_name";

/// `Principal`: a peer that is known.
pub const AUTHENTICATED: &str = "authenticated";

/// `Principal.Authenticated`: the peer's name.
pub const PRINCIPAL_NAME: &str = "principal_name";

/// `Principal`: the address that the connection comes from.
pub const DIRECT_REMOTE_IP: &str = "direct_remote_ip";

/// `Principal`: the client's own address.
pub const REMOTE_IP: &str = "remote_ip";

/// `Principal`: a value that an earlier filter left.
pub const METADATA: &str = "metadata";

/// `config.core.v3.CidrRange`: the address.
pub const ADDRESS_PREFIX: &str = "address_prefix";

/// `config.core.v3.CidrRange`: how many of its bits count.
pub const PREFIX_LEN: &str = "prefix_len";

/// `HeaderMatcher` and `ValueMatcher`: a value that is there.
pub const PRESENT_MATCH: &str = "present_match";

/// `HeaderMatcher` and `ValueMatcher`: a text that matches.
pub const STRING_MATCH: &str = "string_match";

/// `ValueMatcher`: a list.
pub const LIST_MATCH: &str = "list_match";

/// `type.matcher.v3.ListMatcher`: an entry of the list.
pub const ONE_OF: &str = "one_of";

/// `StringMatcher`: what the text holds somewhere.
pub const CONTAINS: &str = "contains";

/// `StringMatcher`: the whole text.
pub const EXACT: &str = "exact";

/// `StringMatcher`: how the text ends.
pub const SUFFIX: &str = "suffix";

/// `StringMatcher`: whether ASCII letters compare without regard to case.
pub const IGNORE_CASE: &str = "ignore_case";

/// `MetadataMatcher`: the filter that left the value.
pub const FILTER: &str = "filter";

/// `MetadataMatcher.PathSegment`: a key.
pub const KEY: &str = "key";

/// `MetadataMatcher`: what is asked of the value.
pub const VALUE: &str = "value";

/// `ExtAuthz`: whether requests go on without an answer.
pub const FAILURE_MODE_ALLOW: &str = "failure_mode_allow";

/// `ExtAuthz`: the metadata by which the authorizer is asked.
pub const FILTER_ENABLED_METADATA: &str = "filter_enabled_metadata";

/// `ExtAuthz`: an authorizer over gRPC.
pub const GRPC_SERVICE: &str = "grpc_service";

/// `config.core.v3.GrpcService`: Envoy's own client.
pub const ENVOY_GRPC: &str = "envoy_grpc";

/// `config.core.v3.GrpcService.EnvoyGrpc`: the cluster.
pub const CLUSTER_NAME: &str = "cluster_name";

/// `config.core.v3.GrpcService` and `HttpUri`: how long an answer may take.
pub const TIMEOUT: &str = "timeout";

/// `ExtAuthz`: an authorizer over HTTP.
pub const HTTP_SERVICE: &str = "http_service";

/// `extensions.filters.http.ext_authz.v3.HttpService`: where it is.
pub const SERVER_URI: &str = "server_uri";

/// `config.core.v3.HttpUri`: the URI.
pub const URI: &str = "uri";

/// `ExtAuthz`: the version of the messages.
pub const TRANSPORT_API_VERSION: &str = "transport_api_version";

/// `JwtAuthentication`: its providers by their names.
pub const PROVIDERS: &str = "providers";

/// `RequirementRule`: what has to be shown.
pub const REQUIRES: &str = "requires";

/// `JwtProvider`: the audiences that tokens have to name.
pub const AUDIENCES: &str = "audiences";

/// `JwtProvider`: whether the token goes on to the application.
pub const FORWARD: &str = "forward";

/// `JwtProvider`: the header that hands the payload on.
pub const FORWARD_PAYLOAD_HEADER: &str = "forward_payload_header";

/// `JwtProvider`: headers with a token.
pub const FROM_HEADERS: &str = "from_headers";

/// `JwtHeader`: what stands in front of the token.
pub const VALUE_PREFIX: &str = "value_prefix";

/// `JwtProvider`: parameters of the query with a token.
pub const FROM_PARAMS: &str = "from_params";

/// `JwtProvider`: who issues the tokens.
pub const ISSUER: &str = "issuer";

/// `JwtProvider`: the key set itself.
pub const LOCAL_JWKS: &str = "local_jwks";

/// `config.core.v3.DataSource`: the text itself.
pub const INLINE_STRING: &str = "inline_string";

/// `JwtProvider`: where the key set is fetched.
pub const REMOTE_JWKS: &str = "remote_jwks";

/// `RemoteJwks`: the URI.
pub const HTTP_URI: &str = "http_uri";

/// `JwtProvider`: the metadata key of the payload.
pub const PAYLOAD_IN_METADATA: &str = "payload_in_metadata";

/// `JwtRequirement`: a token of this provider.
pub const PROVIDER_NAME: &str = "provider_name";

/// `JwtRequirement`: one of several.
pub const REQUIRES_ANY: &str = "requires_any";

/// `JwtRequirementOrList`: these.
pub const REQUIREMENTS: &str = "requirements";

/// `JwtRequirement`: no token at all.
pub const ALLOW_MISSING: &str = "allow_missing";

/// A law: the keys of a listener, its chains and their TLS sockets (Envoy v3 API, `config.listener.v3`,
/// `config.core.v3` and `extensions.transport_sockets.tls.v3`). The call does nothing.
pub fn listener_keys()
    ensures name { NAME.now ≡ codes "name" }
    ensures typed_config { TYPED_CONFIG.now ≡ codes "typed_config" }
    ensures type_url { TYPE.now ≡ codes "@type" }
    ensures address { ADDRESS.now ≡ codes "address" }
    ensures socket_address { SOCKET_ADDRESS.now ≡ codes "socket_address" }
    ensures port_value { PORT_VALUE.now ≡ codes "port_value" }
    ensures filter_chains { FILTER_CHAINS.now ≡ codes "filter_chains" }
    ensures listener_filters { LISTENER_FILTERS.now ≡ codes "listener_filters" }
    ensures traffic_direction { TRAFFIC_DIRECTION.now ≡ codes "traffic_direction" }
    ensures filter_chain_match { FILTER_CHAIN_MATCH.now ≡ codes "filter_chain_match" }
    ensures filters { FILTERS.now ≡ codes "filters" }
    ensures transport_socket { TRANSPORT_SOCKET.now ≡ codes "transport_socket" }
    ensures application_protocols { APPLICATION_PROTOCOLS.now ≡ codes "application_protocols" }
    ensures destination_port { DESTINATION_PORT.now ≡ codes "destination_port" }
    ensures transport_protocol { TRANSPORT_PROTOCOL.now ≡ codes "transport_protocol" }
    ensures common_tls_context { COMMON_TLS_CONTEXT.now ≡ codes "common_tls_context" }
    ensures require_client_certificate { REQUIRE_CLIENT_CERTIFICATE.now ≡ codes "require_client_certificate" }
    ensures tls_certificates { TLS_CERTIFICATES.now ≡ codes "tls_certificate_sds_secret_configs" }
    ensures validation_context { VALIDATION_CONTEXT.now ≡ codes "validation_context_sds_secret_config" }
{}

/// A law: the keys of the TCP proxy and of the connection manager (Envoy v3 API,
/// `extensions.filters.network.tcp_proxy.v3`, `extensions.filters.network.http_connection_manager.v3` and
/// `config.route.v3`). The call does nothing.
pub fn connection_keys()
    ensures cluster { CLUSTER.now ≡ codes "cluster" }
    ensures stat_prefix { STAT_PREFIX.now ≡ codes "stat_prefix" }
    ensures http_filters { HTTP_FILTERS.now ≡ codes "http_filters" }
    ensures route_config { ROUTE_CONFIG.now ≡ codes "route_config" }
    ensures virtual_hosts { VIRTUAL_HOSTS.now ≡ codes "virtual_hosts" }
    ensures domains { DOMAINS.now ≡ codes "domains" }
    ensures routes { ROUTES.now ≡ codes "routes" }
    ensures match_key { MATCH.now ≡ codes "match" }
    ensures route { ROUTE.now ≡ codes "route" }
    ensures prefix { PREFIX.now ≡ codes "prefix" }
{}

/// A law: the keys of role-based access control (Envoy v3 API, `config.rbac.v3`,
/// `extensions.filters.http.rbac.v3.RBAC` and `extensions.filters.network.rbac.v3.RBAC`). The call does nothing.
pub fn rbac_keys()
    ensures rules { RULES.now ≡ codes "rules" }
    ensures shadow_rules { SHADOW_RULES.now ≡ codes "shadow_rules" }
    ensures shadow_prefix { SHADOW_PREFIX.now ≡ codes "shadow_rules_stat_prefix" }
    ensures action { ACTION.now ≡ codes "action" }
    ensures policies { POLICIES.now ≡ codes "policies" }
    ensures permissions { PERMISSIONS.now ≡ codes "permissions" }
    ensures principals { PRINCIPALS.now ≡ codes "principals" }
    ensures any { ANY.now ≡ codes "any" }
    ensures and_rules { AND_RULES.now ≡ codes "and_rules" }
    ensures or_rules { OR_RULES.now ≡ codes "or_rules" }
    ensures not_rule { NOT_RULE.now ≡ codes "not_rule" }
    ensures and_ids { AND_IDS.now ≡ codes "and_ids" }
    ensures or_ids { OR_IDS.now ≡ codes "or_ids" }
    ensures ids { IDS.now ≡ codes "ids" }
    ensures not_id { NOT_ID.now ≡ codes "not_id" }
{}

/// A law: the keys of leaves (Envoy v3 API, `config.rbac.v3.Permission` and `Principal`). The call does nothing.
pub fn leaf_keys()
    ensures header { HEADER.now ≡ codes "header" }
    ensures url_path { URL_PATH.now ≡ codes "url_path" }
    ensures path { PATH.now ≡ codes "path" }
    ensures uri_template { URI_TEMPLATE.now ≡ codes "uri_template" }
    ensures path_template { PATH_TEMPLATE.now ≡ codes "path_template" }
    ensures destination_ip { DESTINATION_IP.now ≡ codes "destination_ip" }
    ensures server_name { SERVER_NAME.now ≡ codes "requested_server_name" }
    ensures authenticated { AUTHENTICATED.now ≡ codes "authenticated" }
    ensures principal_name { PRINCIPAL_NAME.now ≡ codes "principal_name" }
    ensures direct_remote_ip { DIRECT_REMOTE_IP.now ≡ codes "direct_remote_ip" }
    ensures remote_ip { REMOTE_IP.now ≡ codes "remote_ip" }
    ensures metadata { METADATA.now ≡ codes "metadata" }
{}

/// A law: the keys of matchers (Envoy v3 API, `config.core.v3.CidrRange`, `config.route.v3.HeaderMatcher` and
/// `type.matcher.v3`). The call does nothing.
pub fn matcher_keys()
    ensures address_prefix { ADDRESS_PREFIX.now ≡ codes "address_prefix" }
    ensures prefix_len { PREFIX_LEN.now ≡ codes "prefix_len" }
    ensures present_match { PRESENT_MATCH.now ≡ codes "present_match" }
    ensures string_match { STRING_MATCH.now ≡ codes "string_match" }
    ensures list_match { LIST_MATCH.now ≡ codes "list_match" }
    ensures one_of { ONE_OF.now ≡ codes "one_of" }
    ensures contains { CONTAINS.now ≡ codes "contains" }
    ensures exact { EXACT.now ≡ codes "exact" }
    ensures suffix { SUFFIX.now ≡ codes "suffix" }
    ensures ignore_case { IGNORE_CASE.now ≡ codes "ignore_case" }
    ensures filter { FILTER.now ≡ codes "filter" }
    ensures key { KEY.now ≡ codes "key" }
    ensures value { VALUE.now ≡ codes "value" }
{}

/// A law: the keys of external authorization (Envoy v3 API, `extensions.filters.http.ext_authz.v3`,
/// `extensions.filters.network.ext_authz.v3` and `config.core.v3`). The call does nothing.
pub fn authorizer_keys()
    ensures failure_mode_allow { FAILURE_MODE_ALLOW.now ≡ codes "failure_mode_allow" }
    ensures filter_enabled_metadata { FILTER_ENABLED_METADATA.now ≡ codes "filter_enabled_metadata" }
    ensures grpc_service { GRPC_SERVICE.now ≡ codes "grpc_service" }
    ensures envoy_grpc { ENVOY_GRPC.now ≡ codes "envoy_grpc" }
    ensures cluster_name { CLUSTER_NAME.now ≡ codes "cluster_name" }
    ensures timeout { TIMEOUT.now ≡ codes "timeout" }
    ensures http_service { HTTP_SERVICE.now ≡ codes "http_service" }
    ensures server_uri { SERVER_URI.now ≡ codes "server_uri" }
    ensures uri { URI.now ≡ codes "uri" }
    ensures transport_api_version { TRANSPORT_API_VERSION.now ≡ codes "transport_api_version" }
{}

/// A law: the keys of the token filter (Envoy v3 API, `extensions.filters.http.jwt_authn.v3`). The call does nothing.
pub fn token_keys()
    ensures providers { PROVIDERS.now ≡ codes "providers" }
    ensures requires_key { REQUIRES.now ≡ codes "requires" }
    ensures audiences { AUDIENCES.now ≡ codes "audiences" }
    ensures forward { FORWARD.now ≡ codes "forward" }
    ensures forward_payload_header { FORWARD_PAYLOAD_HEADER.now ≡ codes "forward_payload_header" }
    ensures from_headers { FROM_HEADERS.now ≡ codes "from_headers" }
    ensures value_prefix { VALUE_PREFIX.now ≡ codes "value_prefix" }
    ensures from_params { FROM_PARAMS.now ≡ codes "from_params" }
    ensures issuer { ISSUER.now ≡ codes "issuer" }
    ensures local_jwks { LOCAL_JWKS.now ≡ codes "local_jwks" }
    ensures inline_string { INLINE_STRING.now ≡ codes "inline_string" }
    ensures remote_jwks { REMOTE_JWKS.now ≡ codes "remote_jwks" }
    ensures http_uri { HTTP_URI.now ≡ codes "http_uri" }
    ensures payload_in_metadata { PAYLOAD_IN_METADATA.now ≡ codes "payload_in_metadata" }
    ensures provider_name { PROVIDER_NAME.now ≡ codes "provider_name" }
    ensures requires_any { REQUIRES_ANY.now ≡ codes "requires_any" }
    ensures requirements { REQUIREMENTS.now ≡ codes "requirements" }
    ensures allow_missing { ALLOW_MISSING.now ≡ codes "allow_missing" }
{}
