//! The leaves of permissions as JSON.
ghost use Rattle.std.specs.Prelude.{◌≡◌, IfOk};
ghost use Rattle.serde_json.specs.View.{view};
ghost use Rattle.mesh_doc.specs.Fields.{required_written_in};
ghost use Rattle.mesh_doc.specs.Kinds.{text_in};
ghost use Rattle.envoy_types.specs.PermissionForms as form;
ghost use Rattle.envoy_types.specs.PermissionForms.{uri_template_written};
ghost use Rattle.envoy_types.specs.StringForms.{string_in};
ghost use Rattle.envoy_types.specs.declared.keys.TheConstants as key;

use crate::alternatives::{AnyPort, fixed_field, named};
use crate::blocks::{BlockForm, block_value};
use crate::fields::{config_of, named_value, number_value, sole_field};
use crate::form::{Form, Word};
use crate::headers::{HeaderForm, header_value};
use crate::strings::{StringForm, string_to_value};
use envoy_types::keys::{
    AND_RULES, DESTINATION_IP, DESTINATION_PORT, HEADER, NOT_RULE, OR_RULES, PATH, PATH_TEMPLATE,
    RULES, SERVER_NAME, TYPE, URI_TEMPLATE, URL_PATH,
};
use envoy_types::{PermissionLeaf, StringMatcher, URI_TEMPLATE_NAME, URI_TEMPLATE_TYPE};
use mesh_doc::{DocError, Form as JsonForm, Reason, Spot, required_written};
use mesh_policy::Template;
use mesh_text::Memory;
use serde_json::Value;
use std::alloc::Global;

/// The names of all alternatives of a permission.
const KNOWN: &str =
    "and_rules or_rules not_rule any destination_ip destination_port header requested_server_name uri_template url_path";

impl Form for PermissionLeaf {
    ghost use Rattle.envoy_types.specs.PermissionForms.{permission_form};
    ghost use Rattle.envoy_types.proofs.PermissionsBack.{permission-own-names, permission-reads-back, permission-writes};

    ghost form = { permission_form };

    #[tactic(auto, unfolding(mesh_doc::specs::Known::names_of))]
    fn known() -> &'static str {
        KNOWN
    }

    fn word(word: Word) -> &'static str {
        match word {
            Word::And => AND_RULES,
            Word::Or => OR_RULES,
            Word::Parts => RULES,
            Word::Not => NOT_RULE,
        }
    }

    #[tactic(auto, unfolding(envoy_types::specs::PermissionForms::permission_leaf_written))]
    fn write(&self, alloc: Global) -> Result<Value, Memory> {
        match self {
            PermissionLeaf::Header(header) => {
                sole_field(alloc, HEADER, header_value(alloc, header)?)
            }
            PermissionLeaf::UrlPath(matcher) => {
                let inside = sole_field(alloc, PATH, string_to_value(alloc, matcher)?)?;
                sole_field(alloc, URL_PATH, inside)
            }
            PermissionLeaf::UriTemplate(uri) => {
                sole_field(alloc, URI_TEMPLATE, template_value(alloc, uri.as_uri())?)
            }
            PermissionLeaf::DestinationIp(block) => {
                sole_field(alloc, DESTINATION_IP, block_value(alloc, block)?)
            }
            PermissionLeaf::DestinationPort(port) => {
                sole_field(alloc, DESTINATION_PORT, number_value(alloc, *port)?)
            }
            PermissionLeaf::ServerName(matcher) => {
                sole_field(alloc, SERVER_NAME, string_to_value(alloc, matcher)?)
            }
        }
    }

    #[tactic(auto, unfolding(envoy_types::specs::PermissionForms::permission_leaf_faults, envoy_types::specs::PermissionForms::permission_leaf_in, envoy_types::specs::PermissionForms::uri_template_in))]
    fn read_at(alloc: Global, key: &str, v: &Value, at: &Spot) -> Result<PermissionLeaf, DocError> {
        if key == DESTINATION_IP {
            Ok(PermissionLeaf::DestinationIp(BlockForm::read(alloc, v, at)?))
        } else if key == DESTINATION_PORT {
            Ok(PermissionLeaf::DestinationPort(AnyPort::read(alloc, v, at)?))
        } else if key == HEADER {
            Ok(PermissionLeaf::Header(HeaderForm::read(alloc, v, at)?))
        } else if key == SERVER_NAME {
            Ok(PermissionLeaf::ServerName(StringForm::read(alloc, v, at)?))
        } else if key == URI_TEMPLATE {
            let uri = named::<TemplateForm>(alloc, v, URI_TEMPLATE_NAME, at)?;
            Ok(PermissionLeaf::UriTemplate(uri))
        } else {
            Ok(PermissionLeaf::UrlPath(PathForm::read(alloc, v, at)?))
        }
    }

    ghost own_names = { permission-own-names };

    ghost one_field = { permission-writes };

    ghost reads_back = { permission-reads-back };
}

// A template as an extension with its configuration (`UriTemplateMatchConfig`).
#[tactic(auto, unfolding(envoy_types::specs::PermissionForms::uri_template_written))]
fn template_value(alloc: Global, uri: &str) -> Result<Value, Memory>
    ensures { IfOk result (λ v. view v ≡ uri_template_written uri.now) }
{
    let mut config = config_of(alloc, URI_TEMPLATE_TYPE)?;
    config.put_text(alloc, PATH_TEMPLATE, uri)?;
    named_value(alloc, URI_TEMPLATE_NAME, config.into_value())
}

// The path of a request (`type.matcher.v3.PathMatcher`).
struct PathForm;

impl JsonForm for PathForm {
    type Out = StringMatcher;

    ghost faults = { form.url_path_faults };

    ghost value = { required_written_in key.PATH.now string_in };

    #[tactic(auto, unfolding(envoy_types::specs::PermissionForms::url_path_faults))]
    fn read(alloc: Global, v: &Value, at: &Spot) -> Result<StringMatcher, DocError> {
        at.only_fields(alloc, v, &[PATH])?;
        required_written::<StringForm>(alloc, v, PATH, at)
    }
}

// The configuration of a template (`UriTemplateMatchConfig`).
struct TemplateForm;

impl JsonForm for TemplateForm {
    type Out = Template;

    ghost faults = { form.template_config_faults };

    ghost value = { required_written_in key.PATH_TEMPLATE.now text_in };

    #[tactic(auto, unfolding(envoy_types::specs::PermissionForms::template_config_faults))]
    fn read(alloc: Global, v: &Value, at: &Spot) -> Result<Template, DocError> {
        at.only_fields(alloc, v, &[TYPE, PATH_TEMPLATE])?;
        fixed_field(alloc, v, TYPE, URI_TEMPLATE_TYPE, at)?;
        required_written::<UriForm>(alloc, v, PATH_TEMPLATE, at)
    }
}

// A template with `*` and `**` as operators: BadForm for a text that is none.
struct UriForm;

impl JsonForm for UriForm {
    type Out = Template;

    ghost faults = { form.template_faults };

    ghost value = { text_in };

    #[tactic(auto, unfolding(mesh_doc::specs::Tested::tested, mesh_doc::specs::Kinds::text_faults, mesh_doc::specs::Kinds::text_in))]
    fn read(alloc: Global, v: &Value, at: &Spot) -> Result<Template, DocError> {
        let Value::String(text) = v else {
            return Err(at.refuse(alloc, Reason::WrongType));
        };
        match Template::from_uri(alloc, text.as_str())? {
            Some(uri) => Ok(uri),
            None => Err(at.refuse(alloc, Reason::BadForm)),
        }
    }
}
