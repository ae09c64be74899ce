// A MeshConfig: the root namespace and the external authorizers.
ghost use Rattle.std.specs.Prelude.{◌≡◌, OnOk};
ghost use Rattle.serde_json.specs.View.{view};
ghost use Rattle.mesh_doc.specs.Faults.{Reads};
ghost use Rattle.mesh_doc.specs.Fields.{required_in};
ghost use Rattle.mesh_doc.specs.Kinds.{text_in};
ghost use Rattle.manifest_json.specs.MeshConfig as mesh;
ghost use Rattle.manifest_json.specs.declared.metadata.TheConstants.{NAME};

use crate::items::SPEC;
use crate::metadata::{NAME, Name, Namespace};
use crate::ports::{PORT, PortNumber};
use crate::seen::Seen;
use mesh_doc::{
    AnyTruth, DocError, Form, InTurn, Reason, Spot, Tested, field, listed_in_turn, optional,
    or_empty, required,
};
use mesh_policy::{MOST_ENTRIES, MeshConfig, Provider, ROOT_NAMESPACE};
use mesh_text::Text;
use policy_json::IsToken;
use serde_json::Value;
use std::alloc::Global;

const ROOT_NAMESPACE_FIELD: &str = "rootNamespace";

const EXTENSION_PROVIDERS: &str = "extensionProviders";

const ENVOY_EXT_AUTHZ_HTTP: &str = "envoyExtAuthzHttp";

const ENVOY_EXT_AUTHZ_GRPC: &str = "envoyExtAuthzGrpc";

const SERVICE: &str = "service";

const FAIL_OPEN: &str = "failOpen";

/// The MeshConfig that the item at `at` means (Istio reference, Global Mesh Options), or the first fault of its `spec`:
/// WrongType, UnknownField, MissingField, BadName, BadPort, BadValue for a provider of two forms, DuplicateItem for a
/// second provider of one name, and TooMany for more than 2,048 providers. Its metadata are not read.
#[tactic(auto, unfolding(crate::specs::MeshConfig::mesh_item_faults, crate::specs::MeshConfig::mesh_item_in))]
pub(crate) fn read_mesh_item(alloc: Global, item: &Value, at: &Spot) -> Result<MeshConfig, DocError>
    ensures { Reads result
        (mesh.mesh_item_faults (view item.now) at.now)
        (mesh.mesh_item_in (view item.now)) }
{
    or_empty::<Settings>(alloc, item, SPEC, at)
}

struct Settings;

impl Form for Settings {
    type Out = MeshConfig;

    ghost faults = { mesh.mesh_config_faults };

    ghost value = { mesh.mesh_config_in };

    #[tactic(auto, unfolding(crate::specs::MeshConfig::mesh_config_faults, crate::specs::MeshConfig::mesh_config_in))]
    fn read(alloc: Global, v: &Value, at: &Spot) -> Result<MeshConfig, DocError> {
        at.only_fields(alloc, v, &[ROOT_NAMESPACE_FIELD, EXTENSION_PROVIDERS])?;
        let root = optional::<Namespace>(alloc, v, ROOT_NAMESPACE_FIELD, at)?;
        let providers = listed_in_turn::<ProviderEntry>(
            alloc,
            Seen::new(alloc),
            v,
            EXTENSION_PROVIDERS,
            MOST_ENTRIES,
            at,
        )?;
        let root = match root {
            Some(root) => root,
            None => Text::of(alloc, ROOT_NAMESPACE)?,
        };
        Ok(MeshConfig { root, providers })
    }
}

struct ProviderEntry;

impl InTurn for ProviderEntry {
    type Out = Provider;

    type Seen = Seen<Text>;

    ghost faults = { mesh.provider_faults };

    ghost value = { mesh.provider_in };

    ghost after = { mesh.after_provider };

    #[tactic(auto, unfolding(crate::specs::MeshConfig::provider_faults, crate::specs::MeshConfig::provider_in, crate::specs::MeshConfig::after_provider))]
    fn read(
        alloc: Global,
        seen: &mut Seen<Text>,
        v: &Value,
        at: &Spot,
    ) -> Result<Provider, DocError> {
        at.only_fields(
            alloc,
            v,
            &[NAME, ENVOY_EXT_AUTHZ_HTTP, ENVOY_EXT_AUTHZ_GRPC],
        )?;
        let name = read_name(alloc, seen, v, at)?;
        let form = read_form(alloc, v, at)?;
        Ok(Provider {
            name,
            service: form.service,
            port: form.port,
            fail_open: form.fail_open,
            http: field(v, ENVOY_EXT_AUTHZ_HTTP).is_some(),
        })
    }
}

#[tactic(auto, unfolding(crate::specs::MeshConfig::name_in_turn_faults, crate::specs::MeshConfig::after_provider))]
fn read_name(alloc: Global, seen: &mut Seen<Text>, v: &Value, at: &Spot) -> Result<Text, DocError>
    ensures reads { Reads result
        (mesh.name_in_turn_faults seen.old (view v.now) at.now)
        (required_in NAME.now text_in (view v.now)) }
    ensures seen { OnOk result (seen.new ≡ mesh.after_provider seen.old (view v.now)) }
{
    let name = required::<Tested<IsToken>>(alloc, v, NAME, at)?;
    if !seen.note(name.copy(alloc)?)? {
        return Err(Spot::key(at, NAME).refuse(alloc, Reason::DuplicateItem));
    }
    Ok(name)
}

#[tactic(auto, unfolding(crate::specs::MeshConfig::forms_faults, crate::specs::MeshConfig::form_in))]
fn read_form(alloc: Global, v: &Value, at: &Spot) -> Result<Authorizer, DocError>
    ensures { Reads result (mesh.forms_faults (view v.now) at.now) (mesh.form_in (view v.now)) }
{
    match (
        field(v, ENVOY_EXT_AUTHZ_HTTP),
        field(v, ENVOY_EXT_AUTHZ_GRPC),
    ) {
        (None, None) => Err(at.missing(alloc, ENVOY_EXT_AUTHZ_HTTP)),
        (Some(http), None) => AuthorizerForm::read(
            alloc,
            http,
            &Spot::key(at, ENVOY_EXT_AUTHZ_HTTP),
        ),
        (None, Some(grpc)) => AuthorizerForm::read(
            alloc,
            grpc,
            &Spot::key(at, ENVOY_EXT_AUTHZ_GRPC),
        ),
        (Some(_), Some(_)) => Err(at.refuse(alloc, Reason::BadValue)),
    }
}

/// The Service of an external authorizer.
#[derive(Drop)]
pub struct Authorizer {
    pub service: Text,
    pub port: u16,
    pub fail_open: bool,
}

struct AuthorizerForm;

impl Form for AuthorizerForm {
    type Out = Authorizer;

    ghost faults = { mesh.authorizer_faults };

    ghost value = { mesh.authorizer_in };

    #[tactic(auto, unfolding(crate::specs::MeshConfig::authorizer_faults, crate::specs::MeshConfig::authorizer_in))]
    fn read(alloc: Global, v: &Value, at: &Spot) -> Result<Authorizer, DocError> {
        at.only_fields(alloc, v, &[SERVICE, PORT, FAIL_OPEN])?;
        let service = required::<Name>(alloc, v, SERVICE, at)?;
        let port = required::<PortNumber>(alloc, v, PORT, at)?;
        let fail_open = optional::<AnyTruth>(alloc, v, FAIL_OPEN, at)?;
        Ok(Authorizer {
            service,
            port,
            fail_open: fail_open.unwrap_or(false),
        })
    }
}
