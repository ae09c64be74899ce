//! The manifests of a mesh as values, and a connection to judge. `specs/` says which manifests are accepted, and what the
//! policies mean for a connection, whole. String forms, path templates and tokens have their calls here.
#![tactic(auto)]

mod bundle;
mod case;
mod condition;
mod copies;
mod jwt;
mod laws;
mod limits;
mod names;
mod path;
mod pattern;
mod peer;
mod pod;
mod policy;
mod provider;
mod request;
mod service;
mod template;
mod token;
mod token_verdict;
mod verdict;
mod worked;
mod worked_policies;

pub use bundle::{Bundle, MeshConfig};
pub use case::{Case, Tls};
pub use condition::{BlockKey, Condition, TextKey};
pub use jwt::{JwtRule, Keys, RequestAuthentication, TokenPlace, places_or_default};
pub use laws::{peer_names_are_read, workload_tells_ports};
pub use limits::{
    MOST_ENTRIES, MOST_ITEMS, MOST_KEY_SET_BYTES, MOST_SLASHES, MOST_VALUE_BYTES, fixed_limits,
};
pub use names::{
    ACCESS_TOKEN, AUTHORIZATION, BEARER, DEFAULT_NAMESPACE, MESH_PROTOCOLS, ROOT_NAMESPACE,
    fixed_names,
};
pub use path::path_of;
pub use pattern::Pattern;
pub use peer::{Mode, PeerAuthentication, PortMode};
pub use pod::{Label, NamedPort, Pod};
pub use policy::{Action, AuthorizationPolicy, OperationSpec, Rule, SourceSpec};
pub use provider::{Provider, cluster_of};
pub use request::{Header, Request};
pub use service::{Protocol, Service, ServicePort, Target};
pub use template::Template;
pub use token::find_token;
pub use token_verdict::{Answer, Claim, ClaimField, TokenVerdict};
pub use verdict::{Outcome, Verdict};
pub use worked::worked_cases;
pub use worked_policies::{
    audit_marks_and_deny_refuses, authorizer_comes_first, connections_have_no_method,
    empty_headers, explained_by_the_least_name, limits_of_a_workload,
    nothing_and_everything_allowed, oldest_peer_policy_counts, paths_by_template, peer_names,
    peers_by_name, ports_are_listed, protocols_by_name, refused_pods, tls_of_the_mesh,
    tokens_are_judged,
};
