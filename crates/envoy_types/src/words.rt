// Words of Envoy that the meaning of a listener cites.
ghost use Rattle.std.specs.Prelude.{◌≡◌, codes};

/// The pseudo-header of a request's method (RFC 9113, section 8.3.1).
pub const METHOD_HEADER: &str = ":method";

/// The pseudo-header of a request's authority.
pub const AUTHORITY_HEADER: &str = ":authority";

/// The pseudo-header of a request's path, with its query.
pub const PATH_HEADER: &str = ":path";

/// What follows the stat prefix of shadow rules in the metadata key under which the RBAC filters tell the policy that
/// holds (Envoy reference, "Role Based Access Control (RBAC) Filter", dynamic metadata).
pub const SHADOW_POLICY_KEY: &str = "shadow_effective_policy_id";

/// A law: these words are the texts that definitions have. The call does nothing.
pub fn fixed_keys()
    ensures method { METHOD_HEADER.now ≡ codes ":method" }
    ensures authority { AUTHORITY_HEADER.now ≡ codes ":authority" }
    ensures path { PATH_HEADER.now ≡ codes ":path" }
    ensures shadow_policy { SHADOW_POLICY_KEY.now ≡ codes "shadow_effective_policy_id" }
{}
