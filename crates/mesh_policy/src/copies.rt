// Equal values of their own.
ghost use Rattle.std.specs.Prelude.{◌≡◌, IfOk};

use crate::{Condition, Label, OperationSpec, Rule, SourceSpec, TextKey, TokenPlace};
use mesh_net::Cidr;
use mesh_text::{List, Memory, Text};
use std::alloc::Global;

pub trait TryCopy {
    fn try_copy(&self, alloc: Global) -> Result<Self, Memory>
        ensures { IfOk result (λ c. c ≡ self.now) };
}

fn copy_all<T: TryCopy + Drop>(alloc: Global, items: &[T]) -> Result<List<T>, Memory>
    ensures { IfOk result (λ l. l ≡ items.now) }
{
    let mut copies = List::with_room(alloc, items.len())?;
    for item in items {
        copies.push(item.try_copy(alloc)?)?;
    }
    Ok(copies)
}

impl<T: TryCopy + Drop> TryCopy for List<T> {
    fn try_copy(&self, alloc: Global) -> Result<List<T>, Memory> {
        copy_all(alloc, self)
    }
}

impl<T: TryCopy> TryCopy for Option<T> {
    fn try_copy(&self, alloc: Global) -> Result<Option<T>, Memory> {
        match self {
            None => Ok(None),
            Some(item) => Ok(Some(item.try_copy(alloc)?)),
        }
    }
}

impl TryCopy for Text {
    fn try_copy(&self, alloc: Global) -> Result<Text, Memory> {
        self.copy(alloc)
    }
}

impl TryCopy for u16 {
    fn try_copy(&self, alloc: Global) -> Result<u16, Memory> {
        Ok(*self)
    }
}

impl TryCopy for Cidr {
    fn try_copy(&self, alloc: Global) -> Result<Cidr, Memory> {
        Ok(*self)
    }
}

impl TryCopy for Label {
    fn try_copy(&self, alloc: Global) -> Result<Label, Memory> {
        Ok(Label {
            key: self.key.copy(alloc)?,
            value: self.value.copy(alloc)?,
        })
    }
}

impl TryCopy for TokenPlace {
    fn try_copy(&self, alloc: Global) -> Result<TokenPlace, Memory> {
        match self {
            TokenPlace::Header { name, prefix } => Ok(TokenPlace::Header {
                name: name.copy(alloc)?,
                prefix: prefix.copy(alloc)?,
            }),
            TokenPlace::Param(name) => Ok(TokenPlace::Param(name.copy(alloc)?)),
        }
    }
}

impl TryCopy for Rule {
    fn try_copy(&self, alloc: Global) -> Result<Rule, Memory> {
        Ok(Rule {
            sources: self.sources.try_copy(alloc)?,
            operations: self.operations.try_copy(alloc)?,
            conditions: self.conditions.try_copy(alloc)?,
        })
    }
}

impl TryCopy for SourceSpec {
    fn try_copy(&self, alloc: Global) -> Result<SourceSpec, Memory> {
        Ok(SourceSpec {
            principals: self.principals.try_copy(alloc)?,
            not_principals: self.not_principals.try_copy(alloc)?,
            request_principals: self.request_principals.try_copy(alloc)?,
            not_request_principals: self.not_request_principals.try_copy(alloc)?,
            namespaces: self.namespaces.try_copy(alloc)?,
            not_namespaces: self.not_namespaces.try_copy(alloc)?,
            ip_blocks: self.ip_blocks.try_copy(alloc)?,
            not_ip_blocks: self.not_ip_blocks.try_copy(alloc)?,
            remote_ip_blocks: self.remote_ip_blocks.try_copy(alloc)?,
            not_remote_ip_blocks: self.not_remote_ip_blocks.try_copy(alloc)?,
        })
    }
}

impl TryCopy for OperationSpec {
    fn try_copy(&self, alloc: Global) -> Result<OperationSpec, Memory> {
        Ok(OperationSpec {
            hosts: self.hosts.try_copy(alloc)?,
            not_hosts: self.not_hosts.try_copy(alloc)?,
            ports: self.ports.try_copy(alloc)?,
            not_ports: self.not_ports.try_copy(alloc)?,
            methods: self.methods.try_copy(alloc)?,
            not_methods: self.not_methods.try_copy(alloc)?,
            paths: self.paths.try_copy(alloc)?,
            not_paths: self.not_paths.try_copy(alloc)?,
        })
    }
}

impl TryCopy for Condition {
    fn try_copy(&self, alloc: Global) -> Result<Condition, Memory> {
        match self {
            Condition::Words {
                key,
                values,
                not_values,
            } => Ok(Condition::Words {
                key: key.try_copy(alloc)?,
                values: values.try_copy(alloc)?,
                not_values: not_values.try_copy(alloc)?,
            }),
            Condition::Blocks {
                key,
                values,
                not_values,
            } => Ok(Condition::Blocks {
                key: *key,
                values: values.try_copy(alloc)?,
                not_values: not_values.try_copy(alloc)?,
            }),
            Condition::Ports { values, not_values } => Ok(Condition::Ports {
                values: values.try_copy(alloc)?,
                not_values: not_values.try_copy(alloc)?,
            }),
        }
    }
}

impl TryCopy for TextKey {
    fn try_copy(&self, alloc: Global) -> Result<TextKey, Memory> {
        match self {
            TextKey::SourcePrincipal => Ok(TextKey::SourcePrincipal),
            TextKey::SourceNamespace => Ok(TextKey::SourceNamespace),
            TextKey::Sni => Ok(TextKey::Sni),
            TextKey::Header(name) => Ok(TextKey::Header(name.copy(alloc)?)),
            TextKey::AuthPrincipal => Ok(TextKey::AuthPrincipal),
            TextKey::Audiences => Ok(TextKey::Audiences),
            TextKey::Presenter => Ok(TextKey::Presenter),
            TextKey::Claim(path) => Ok(TextKey::Claim(path.try_copy(alloc)?)),
        }
    }
}
