// The filters that ask an external authorizer.
use crate::strings::StringMatcher;
use mesh_text::Text;

/// An external authorization filter (Envoy v3 API, `extensions.filters.http.ext_authz.v3.ExtAuthz` and
/// `extensions.filters.network.ext_authz.v3.ExtAuthz`).
#[derive(Debug, Drop, PartialEq, Eq)]
pub struct ExtAuthz {
    pub service: AuthService,
    /// Whether a request or connection goes on where the authorizer gives no answer (`failure_mode_allow`).
    pub fail_open: bool,
    /// The metadata key by which the filter is asked at all (`filter_enabled_metadata`).
    pub enabled_key: Text,
    /// What the value there has to match.
    pub enabled: StringMatcher,
}

/// Which service is asked.
#[derive(Debug, Drop, PartialEq, Eq)]
pub enum AuthService {
    /// Over HTTP (`http_service`).
    Http { cluster: Text, uri: Text },
    /// Over gRPC (`grpc_service`).
    Grpc { cluster: Text },
}
