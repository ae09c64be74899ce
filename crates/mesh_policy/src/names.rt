// Names that Kubernetes and Istio give.
ghost use Rattle.std.specs.Prelude.{◌≡◌, codes, map};
ghost use Rattle.mesh_policy.specs.Applying as applying;
ghost use Rattle.mesh_policy.specs.Connection as connection;

/// The namespace of what names none (Kubernetes, "Namespaces").
pub const DEFAULT_NAMESPACE: &str = "default";

/// The root namespace where a MeshConfig names none (Istio reference, MeshConfig, `rootNamespace`).
pub const ROOT_NAMESPACE: &str = "istio-system";

/// The application protocols (RFC 7301) by which a sidecar of the mesh makes itself known.
pub const MESH_PROTOCOLS: [&str; 5] = [
    "istio",
    "istio-peer-exchange",
    "istio-http/1.0",
    "istio-http/1.1",
    "istio-h2",
];

/// The header of a bearer token (RFC 6750, section 2.1).
pub const AUTHORIZATION: &str = "authorization";

/// What stands before a bearer token in its header (RFC 6750, section 2.1).
pub const BEARER: &str = "Bearer ";

/// The parameter of a bearer token (RFC 6750, section 2.3).
pub const ACCESS_TOKEN: &str = "access_token";

/// A law: these names are the texts that definitions have. The call does nothing.
pub fn fixed_names()
    ensures default_namespace { DEFAULT_NAMESPACE.now ≡ codes "default" }
    ensures root_namespace { ROOT_NAMESPACE.now ≡ applying.root_namespace }
    ensures authorization { AUTHORIZATION.now ≡ codes "authorization" }
    ensures bearer { BEARER.now ≡ codes "Bearer " }
    ensures access_token { ACCESS_TOKEN.now ≡ codes "access_token" }
    ensures mesh_protocols { map (λ name. name.now) MESH_PROTOCOLS ≡ connection.mesh_names }
{}
