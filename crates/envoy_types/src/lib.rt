//! The inbound listener of Envoy as a value, its meaning for a connection or request, and which JSON spells it
//! (Envoy v3 API reference).
#![tactic(auto)]

mod access;
mod authz;
mod chains;
pub mod fixed;
mod headers;
mod jwt;
pub mod keys;
mod laws;
mod metadata;
mod names;
mod permission;
mod principal;
mod state;
mod strings;
mod words;
mod worked;

pub use access::{Rbac, RbacAction, RbacPolicy, RbacRules};
pub use authz::{AuthService, ExtAuthz};
pub use chains::{
    ChainBody, ChainMatch, FilterChain, HttpFilter, Listener, NetworkFilter, Transport,
};
pub use headers::{HeaderMatch, HeaderTest};
pub use jwt::{JwtAuthn, JwtCheck, JwtProvider, Requirement, provider_named};
pub use laws::written_spells;
pub use metadata::ValueMatcher;
pub use names::{
    HTTP_AUTHZ_NAME, HTTP_AUTHZ_TYPE, HTTP_MANAGER_NAME, HTTP_MANAGER_TYPE, HTTP_RBAC_NAME,
    HTTP_RBAC_TYPE, JWT_NAME, JWT_TYPE, NETWORK_AUTHZ_NAME, NETWORK_AUTHZ_TYPE, NETWORK_RBAC_NAME,
    NETWORK_RBAC_TYPE, ORIGINAL_DST_NAME, ORIGINAL_DST_TYPE, ROUTER_NAME, ROUTER_TYPE,
    TCP_PROXY_NAME, TCP_PROXY_TYPE, TLS_INSPECTOR_NAME, TLS_INSPECTOR_TYPE, TLS_SOCKET_NAME,
    TLS_SOCKET_TYPE, URI_TEMPLATE_NAME, URI_TEMPLATE_TYPE, filter_words,
};
pub use permission::PermissionLeaf;
pub use principal::PrincipalLeaf;
pub use state::State;
pub use strings::{MatchKind, StringMatcher};
pub use words::{AUTHORITY_HEADER, METHOD_HEADER, PATH_HEADER, SHADOW_POLICY_KEY, fixed_keys};
pub use worked::{
    chains_are_pruned, first_provider_sets_claims, marks_stay, shadow_rules_refuse_nothing,
    sockets_show_peers,
};
