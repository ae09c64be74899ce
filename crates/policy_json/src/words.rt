// The words of policies: laws that tie each constant which definitions cite to its text.
ghost use Rattle.std.specs.Prelude.{◌≡◌, codes};
ghost use Rattle.policy_json.specs.declared.authorization.TheConstants as authorization;
ghost use Rattle.policy_json.specs.declared.condition_keys.TheConstants as keys;
ghost use Rattle.policy_json.specs.declared.conditions.TheConstants as condition;
ghost use Rattle.policy_json.specs.declared.jwt_rules.TheConstants as jwt_rule;
ghost use Rattle.policy_json.specs.declared.labels.TheConstants as label;
ghost use Rattle.policy_json.specs.declared.operations.TheConstants as operation;
ghost use Rattle.policy_json.specs.declared.peer.TheConstants as peer;
ghost use Rattle.policy_json.specs.declared.request.TheConstants as request;
ghost use Rattle.policy_json.specs.declared.rules.TheConstants as rule;
ghost use Rattle.policy_json.specs.declared.sources.TheConstants as source;
ghost use Rattle.policy_json.specs.declared.target_refs.TheConstants as target;
ghost use Rattle.policy_json.specs.declared.token_places.TheConstants as place;

/// A law: the words of an AuthorizationPolicy (Istio reference, "Authorization Policy"). The call does nothing.
pub fn authorization_words()
    ensures selector { label.SELECTOR.now ≡ codes "selector" }
    ensures match_labels { label.MATCH_LABELS.now ≡ codes "matchLabels" }
    ensures target_refs { target.TARGET_REFS.now ≡ codes "targetRefs" }
    ensures target_ref { target.TARGET_REF.now ≡ codes "targetRef" }
    ensures action { authorization.ACTION.now ≡ codes "action" }
    ensures allow { authorization.ALLOW.now ≡ codes "ALLOW" }
    ensures deny { authorization.DENY.now ≡ codes "DENY" }
    ensures audit { authorization.AUDIT.now ≡ codes "AUDIT" }
    ensures custom { authorization.CUSTOM.now ≡ codes "CUSTOM" }
    ensures provider { authorization.PROVIDER.now ≡ codes "provider" }
    ensures name { authorization.NAME.now ≡ codes "name" }
    ensures rules { authorization.RULES.now ≡ codes "rules" }
{}

/// A law: the words of its rules (Istio reference, "Authorization Policy": Rule, Source, Operation, Condition). The
/// call does nothing.
pub fn rule_words()
    ensures from { rule.FROM.now ≡ codes "from" }
    ensures to { rule.TO.now ≡ codes "to" }
    ensures when { rule.WHEN.now ≡ codes "when" }

    ensures source { rule.SOURCE.now ≡ codes "source" }
    ensures principals { source.PRINCIPALS.now ≡ codes "principals" }
    ensures not_principals { source.NOT_PRINCIPALS.now ≡ codes "notPrincipals" }
    ensures request_principals { source.REQUEST_PRINCIPALS.now ≡ codes "requestPrincipals" }
    ensures not_request_principals { source.NOT_REQUEST_PRINCIPALS.now ≡ codes "notRequestPrincipals" }
    ensures namespaces { source.NAMESPACES.now ≡ codes "namespaces" }
    ensures not_namespaces { source.NOT_NAMESPACES.now ≡ codes "notNamespaces" }
    ensures ip_blocks { source.IP_BLOCKS.now ≡ codes "ipBlocks" }
    ensures not_ip_blocks { source.NOT_IP_BLOCKS.now ≡ codes "notIpBlocks" }
    ensures remote_ip_blocks { source.REMOTE_IP_BLOCKS.now ≡ codes "remoteIpBlocks" }
    ensures not_remote_ip_blocks { source.NOT_REMOTE_IP_BLOCKS.now ≡ codes "notRemoteIpBlocks" }

    ensures operation { rule.OPERATION.now ≡ codes "operation" }
    ensures hosts { operation.HOSTS.now ≡ codes "hosts" }
    ensures not_hosts { operation.NOT_HOSTS.now ≡ codes "notHosts" }
    ensures ports { operation.PORTS.now ≡ codes "ports" }
    ensures not_ports { operation.NOT_PORTS.now ≡ codes "notPorts" }
    ensures methods { operation.METHODS.now ≡ codes "methods" }
    ensures not_methods { operation.NOT_METHODS.now ≡ codes "notMethods" }
    ensures paths { operation.PATHS.now ≡ codes "paths" }
    ensures not_paths { operation.NOT_PATHS.now ≡ codes "notPaths" }

    ensures key { condition.KEY.now ≡ codes "key" }
    ensures values { condition.VALUES.now ≡ codes "values" }
    ensures not_values { condition.NOT_VALUES.now ≡ codes "notValues" }
{}

/// A law: the keys of conditions (Istio reference, "Authorization Policy Conditions"); of headers and claims what stands
/// before the brackets. The call does nothing.
pub fn condition_key_words()
    ensures source_principal { keys.SOURCE_PRINCIPAL.now ≡ codes "source.principal" }
    ensures source_namespace { keys.SOURCE_NAMESPACE.now ≡ codes "source.namespace" }
    ensures source_ip { keys.SOURCE_IP.now ≡ codes "source.ip" }
    ensures remote_ip { keys.REMOTE_IP.now ≡ codes "remote.ip" }
    ensures destination_ip { keys.DESTINATION_IP.now ≡ codes "destination.ip" }
    ensures destination_port { keys.DESTINATION_PORT.now ≡ codes "destination.port" }
    ensures sni { keys.SNI.now ≡ codes "connection.sni" }
    ensures headers { keys.HEADERS.now ≡ codes "request.headers" }
    ensures auth_principal { keys.AUTH_PRINCIPAL.now ≡ codes "request.auth.principal" }
    ensures audiences { keys.AUDIENCES.now ≡ codes "request.auth.audiences" }
    ensures presenter { keys.PRESENTER.now ≡ codes "request.auth.presenter" }
    ensures claims { keys.CLAIMS.now ≡ codes "request.auth.claims" }
{}

/// A law: the words of a PeerAuthentication (Istio reference, PeerAuthentication). The call does nothing.
pub fn peer_words()
    ensures mtls { peer.MTLS.now ≡ codes "mtls" }
    ensures mode { peer.MODE.now ≡ codes "mode" }
    ensures unset { peer.UNSET.now ≡ codes "UNSET" }
    ensures disable { peer.DISABLE.now ≡ codes "DISABLE" }
    ensures permissive { peer.PERMISSIVE.now ≡ codes "PERMISSIVE" }
    ensures strict { peer.STRICT.now ≡ codes "STRICT" }
    ensures port_level_mtls { peer.PORT_LEVEL_MTLS.now ≡ codes "portLevelMtls" }
{}

/// A law: the words of a RequestAuthentication (Istio reference, RequestAuthentication, JWTRule), and the places of a
/// bearer token (RFC 6750, sections 2.1 and 2.3). The call does nothing.
pub fn request_words()
    ensures jwt_rules { request.JWT_RULES.now ≡ codes "jwtRules" }
    ensures issuer { jwt_rule.ISSUER.now ≡ codes "issuer" }
    ensures audiences { jwt_rule.AUDIENCES.now ≡ codes "audiences" }
    ensures jwks_uri { jwt_rule.JWKS_URI.now ≡ codes "jwksUri" }
    ensures jwks { jwt_rule.JWKS.now ≡ codes "jwks" }
    ensures from_headers { jwt_rule.FROM_HEADERS.now ≡ codes "fromHeaders" }
    ensures name { place.NAME.now ≡ codes "name" }
    ensures prefix { place.PREFIX.now ≡ codes "prefix" }
    ensures from_params { jwt_rule.FROM_PARAMS.now ≡ codes "fromParams" }
    ensures forward { jwt_rule.FORWARD.now ≡ codes "forwardOriginalToken" }
    ensures payload_header { jwt_rule.PAYLOAD_HEADER.now ≡ codes "outputPayloadToHeader" }
{}
