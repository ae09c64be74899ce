// The name of a Pod, as commands and refusals write it.
ghost use Rattle.std.specs.Prelude.{◌≡◌, IfOk};

use mesh_text::{Memory, Text, is_dns_label, is_dns_subdomain};
use std::alloc::Global;
use std::marker::Model;

/// The namespace and the name of a Pod.
#[derive(Debug, Drop)]
pub struct PodName<'a> {
    namespace: &'a str,
    name: &'a str,
}

impl<'a> Model for PodName<'a> {
    ghost use Rattle.mesh_cli.specs.PodName.{PodName as Named};

    ghost Value = { Named };

    ghost view = { λ p. record { namespace = p.namespace.now; name = p.name.now } };
}

impl<'a> PodName<'a> {
    ghost use Rattle.mesh_cli.specs.PodName.{pod_name_of, pod_text};

    /// The name that is written `NAMESPACE/NAME`; None for other texts.
    pub fn parse(path: &'a str) -> Option<PodName<'a>>
        ensures { result ≡ pod_name_of path.now }
    {
        let Some((namespace, name)) = path.split_once('/') else {
            return None;
        };
        if is_dns_label(namespace) && is_dns_subdomain(name) {
            Some(PodName { namespace, name })
        } else {
            None
        }
    }

    pub fn namespace(&self) -> &str
        ensures { result.now ≡ self.now.namespace }
    {
        self.namespace
    }

    pub fn name(&self) -> &str
        ensures { result.now ≡ self.now.name }
    {
        self.name
    }

    /// The name as it is written.
    pub fn text(&self, alloc: Global) -> Result<Text, Memory>
        ensures { IfOk result (λ t. t ≡ pod_text self.now) }
    {
        let text = format!(in alloc; "{}/{}", self.namespace, self.name)?;
        Ok(Text::from_string(text))
    }
}
