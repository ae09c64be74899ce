// External authorizers.
ghost use Rattle.std.specs.Prelude.{◌≡◌, IfOk};
ghost use Rattle.mesh_policy.specs.Provider.{cluster_of};

use mesh_text::{Memory, Text};
use std::alloc::Global;

/// An external authorizer that CUSTOM policies name (Istio reference, MeshConfig,
/// `extensionProviders`: `envoyExtAuthzHttp` and `envoyExtAuthzGrpc`).
#[derive(Debug, Drop, PartialEq, Eq)]
pub struct Provider {
    pub name: Text,
    /// The fully qualified host name of its Service.
    pub service: Text,
    /// From 1 to 65,535.
    pub port: u16,
    /// Whether a request goes on where the authorizer gives no answer.
    pub fail_open: bool,
    /// Whether it is asked over HTTP, and else over gRPC.
    pub http: bool,
}

impl Provider {
    /// An equal provider of its own.
    pub fn copy(&self, alloc: Global) -> Result<Provider, Memory>
        ensures { IfOk result (λ p. p ≡ self.now) }
    {
        Ok(Provider {
            name: self.name.copy(alloc)?,
            service: self.service.copy(alloc)?,
            port: self.port,
            fail_open: self.fail_open,
            http: self.http,
        })
    }
}

/// The name that Istio gives the Envoy cluster of a provider's Service: `outbound|PORT||SERVICE`, the
/// subset between the last two bars being empty.
pub fn cluster_of(alloc: Global, p: &Provider) -> Result<Text, Memory>
    ensures { IfOk result (λ t. t ≡ cluster_of p.now) }
{
    let name = format!(in alloc; "outbound|{}||{}", p.port, p.service)?;
    Ok(Text::from_string(name))
}
