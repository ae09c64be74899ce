// What an item is read as, by its `apiVersion` and `kind`.
ghost use Rattle.std.specs.Prelude.{◌≡◌};
ghost use Rattle.manifest_json.specs.KindTable as table;

use crate::key::Kind;
use mesh_text::is_prefix;

const ISTIO_GROUP: &str = "security.istio.io/";

const ISTIO_V1: &str = "security.istio.io/v1";

const ISTIO_V1BETA1: &str = "security.istio.io/v1beta1";

const PROFILE_GROUP: &str = "mesh.profile/";

const PROFILE_V1: &str = "mesh.profile/v1";

const CORE_V1: &str = "v1";

const AUTHORIZATION_POLICY: &str = "AuthorizationPolicy";

const PEER_AUTHENTICATION: &str = "PeerAuthentication";

const REQUEST_AUTHENTICATION: &str = "RequestAuthentication";

const POD: &str = "Pod";

const SERVICE: &str = "Service";

const MESH_CONFIG: &str = "MeshConfig";

/// What an item of that `apiVersion` and `kind` is read as. None where it is of a known group, and of no known kind.
#[tactic(auto, unfolding(crate::specs::KindTable::kind_of))]
pub(crate) fn kind_of(version: &str, kind: &str) -> Option<Kind>
    ensures { result ≡ table.kind_of version.now kind.now }
{
    if is_policy_version(version) {
        return policy_kind(kind);
    }
    if version == CORE_V1 {
        return core_kind(kind);
    }
    if version == PROFILE_V1 {
        return profile_kind(kind);
    }
    if is_of_known_group(version) {
        return None;
    }
    Some(Kind::Other)
}

fn is_policy_version(version: &str) -> bool
    ensures { result ≡ table.is_policy_version version.now }
{
    version == ISTIO_V1 || version == ISTIO_V1BETA1
}

fn policy_kind(kind: &str) -> Option<Kind>
    ensures { result ≡ table.policy_kind kind.now }
{
    if kind == AUTHORIZATION_POLICY {
        return Some(Kind::Authorization);
    }
    if kind == PEER_AUTHENTICATION {
        return Some(Kind::Peer);
    }
    if kind == REQUEST_AUTHENTICATION {
        return Some(Kind::Request);
    }
    None
}

fn core_kind(kind: &str) -> Option<Kind>
    ensures { result ≡ table.core_kind kind.now }
{
    if kind == POD {
        return Some(Kind::Pod);
    }
    if kind == SERVICE {
        return Some(Kind::Service);
    }
    Some(Kind::Other)
}

fn profile_kind(kind: &str) -> Option<Kind>
    ensures { result ≡ table.profile_kind kind.now }
{
    if kind == MESH_CONFIG {
        return Some(Kind::Mesh);
    }
    None
}

fn is_of_known_group(version: &str) -> bool
    ensures { result ≡ table.is_of_known_group version.now }
{
    is_prefix(ISTIO_GROUP, version) || is_prefix(PROFILE_GROUP, version)
}
