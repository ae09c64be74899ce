// The leaves of permissions.
ghost use Rattle.std.specs.Prelude.{◌≡◌, IfOk};
ghost use Rattle.std.specs.Option.{option_copied};
ghost use Rattle.mesh_policy.specs.Path as target;
ghost use Rattle.mesh_policy.specs.Template as template;
ghost use Rattle.envoy_types.specs.Permission as meaning;
ghost use Rattle.envoy_types.specs.State.{holds_of};
ghost use Rattle.envoy_types.specs.Strings.{string_holds};

use crate::headers::HeaderMatch;
use crate::state::{State, request_of};
use crate::strings::StringMatcher;
use mesh_net::Cidr;
use mesh_policy::{Case, Request, Template, Tls, path_of};
use mesh_text::Memory;
use mesh_tree::Leaf;
use std::alloc::Global;

/// A test of what is asked for (Envoy v3 API, `config.rbac.v3.Permission`). Those of requests hold of no TCP connection.
#[derive(Debug, Drop, PartialEq, Eq, Hash)]
pub enum PermissionLeaf {
    /// Of a header, or of the method, authority or path.
    Header(HeaderMatch),
    /// Of the path without its query.
    UrlPath(StringMatcher),
    /// Of the path without its query, by a template.
    UriTemplate(Template),
    DestinationIp(Cidr),
    DestinationPort(u16),
    /// Of the server name that the client asked for, which is the empty text where it asked for none.
    ServerName(StringMatcher),
}

impl Leaf for PermissionLeaf {
    ghost use Rattle.envoy_types.specs.Permission.{leaf_holds};
    ghost use Rattle.envoy_types.specs.SameLeaves.{permission_same};
    ghost use Rattle.envoy_types.specs.State.{seen_of};

    type Scene = Case;

    type State = State;

    ghost holds = { λ leaf case state. leaf_holds leaf case (seen_of case state) };

    ghost same = { permission_same };

    fn judge(&self, scene: &Case, state: &State) -> bool {
        match self {
            PermissionLeaf::Header(header) => header.holds(request_of(scene, state)),
            PermissionLeaf::UrlPath(matcher) => path_holds(matcher, request_of(scene, state)),
            PermissionLeaf::UriTemplate(uri) => template_holds(uri, request_of(scene, state)),
            PermissionLeaf::DestinationIp(block) => block.contains(&scene.destination),
            PermissionLeaf::DestinationPort(port) => *port == scene.port,
            PermissionLeaf::ServerName(matcher) => matcher.holds(server_name(scene.tls.as_ref())),
        }
    }

    fn copy(&self, alloc: Global) -> Result<PermissionLeaf, Memory> {
        match self {
            PermissionLeaf::Header(header) => Ok(PermissionLeaf::Header(header.copy(alloc)?)),
            PermissionLeaf::UrlPath(matcher) => Ok(PermissionLeaf::UrlPath(matcher.copy(alloc)?)),
            PermissionLeaf::UriTemplate(uri) => Ok(PermissionLeaf::UriTemplate(uri.copy(alloc)?)),
            PermissionLeaf::DestinationIp(block) => Ok(PermissionLeaf::DestinationIp(*block)),
            PermissionLeaf::DestinationPort(port) => Ok(PermissionLeaf::DestinationPort(*port)),
            PermissionLeaf::ServerName(matcher) => {
                Ok(PermissionLeaf::ServerName(matcher.copy(alloc)?))
            }
        }
    }
}

fn path_holds(matcher: &StringMatcher, request: Option<&Request>) -> bool
    ensures { result
        ≡ holds_of (λ r. string_holds matcher.now (target.path_of r.path)) (option_copied request.entry) }
{
    match request {
        None => false,
        Some(request) => matcher.holds(path_of(&request.path)),
    }
}

fn template_holds(uri: &Template, request: Option<&Request>) -> bool
    ensures { result
        ≡ holds_of (λ r. template.template_holds uri.now (target.path_of r.path)) (option_copied request.entry) }
{
    match request {
        None => false,
        Some(request) => uri.matches(path_of(&request.path)),
    }
}

fn server_name(tls: Option<&Tls>) -> &str
    ensures { result.now ≡ meaning.server_name (option_copied tls.entry) }
{
    match tls {
        None => "",
        Some(tls) => match &tls.sni {
            None => "",
            Some(name) => name.as_str(),
        },
    }
}
