// The leaves of principals.
ghost use Rattle.std.specs.Prelude.{◌≡◌, Bool, IfOk};
ghost use Rattle.std.specs.Option.{option_copied};
ghost use Rattle.envoy_types.specs.Principal as meaning;
ghost use Rattle.envoy_types.specs.State.{holds_of};

use crate::headers::HeaderMatch;
use crate::metadata::{ValueMatcher, claim_holds};
use crate::state::{State, claims_of, peer_of, request_of};
use crate::strings::StringMatcher;
use mesh_net::Cidr;
use mesh_policy::Case;
use mesh_text::{List, Memory, Text};
use mesh_tree::Leaf;
use std::alloc::Global;

/// A test of who asks (Envoy v3 API, `config.rbac.v3.Principal`). Those of requests hold of no TCP connection.
#[derive(Debug, Drop, PartialEq, Eq, Hash)]
pub enum PrincipalLeaf {
    /// Of the peer's whole name, where it is known; without a matcher, that it is known.
    Authenticated(Option<StringMatcher>),
    /// Of where the connection comes from.
    DirectRemoteIp(Cidr),
    /// Of the client's own address.
    RemoteIp(Cidr),
    Header(HeaderMatch),
    /// Of the claim at a path of keys, which stands behind the key `payload` in the metadata.
    Metadata {
        path: List<Text>,
        value: ValueMatcher,
    },
}

impl Leaf for PrincipalLeaf {
    ghost use Rattle.envoy_types.specs.Principal.{leaf_holds};
    ghost use Rattle.envoy_types.specs.SameLeaves.{principal_same};
    ghost use Rattle.envoy_types.specs.State.{seen_of};

    type Scene = Case;

    type State = State;

    ghost holds = { λ leaf case state. leaf_holds leaf case (seen_of case state) };

    ghost same = { principal_same };

    fn judge(&self, scene: &Case, state: &State) -> bool {
        match self {
            PrincipalLeaf::Authenticated(name) => name_holds(name.as_ref(), peer_of(scene, state)),
            PrincipalLeaf::DirectRemoteIp(block) => block.contains(&scene.source),
            PrincipalLeaf::RemoteIp(block) => block.contains(&scene.remote),
            PrincipalLeaf::Header(header) => header.holds(request_of(scene, state)),
            PrincipalLeaf::Metadata { path, value } => {
                request_of(scene, state).is_some()
                    && claim_holds(value, path, claims_of(scene, state))
            }
        }
    }

    fn copy(&self, alloc: Global) -> Result<PrincipalLeaf, Memory> {
        match self {
            PrincipalLeaf::Authenticated(name) => {
                Ok(PrincipalLeaf::Authenticated(copy_name(alloc, name.as_ref())?))
            }
            PrincipalLeaf::DirectRemoteIp(block) => Ok(PrincipalLeaf::DirectRemoteIp(*block)),
            PrincipalLeaf::RemoteIp(block) => Ok(PrincipalLeaf::RemoteIp(*block)),
            PrincipalLeaf::Header(header) => Ok(PrincipalLeaf::Header(header.copy(alloc)?)),
            PrincipalLeaf::Metadata { path, value } => Ok(PrincipalLeaf::Metadata {
                path: copy_path(alloc, path)?,
                value: value.copy(alloc)?,
            }),
        }
    }
}

fn name_holds(name: Option<&StringMatcher>, peer: Option<&str>) -> bool
    ensures { result ≡ holds_of (meaning.name_holds (option_copied name.entry)) (option_copied peer.entry) }
{
    match peer {
        None => false,
        Some(peer) => match name {
            None => true,
            Some(matcher) => matcher.holds(peer),
        },
    }
}

fn copy_name(alloc: Global, name: Option<&StringMatcher>) -> Result<Option<StringMatcher>, Memory>
    ensures { IfOk result (λ n. n ≡ option_copied name.entry) }
{
    match name {
        None => Ok(None),
        Some(matcher) => Ok(Some(matcher.copy(alloc)?)),
    }
}

fn copy_path(alloc: Global, path: &[Text]) -> Result<List<Text>, Memory>
    ensures { IfOk result (λ p. p ≡ path.now) }
{
    let mut copies = List::with_room(alloc, path.len())?;
    for key in path {
        copies.push(key.copy(alloc)?)?;
    }
    Ok(copies)
}
