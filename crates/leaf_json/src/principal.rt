//! The leaves of principals as JSON.
ghost use Rattle.std.specs.Prelude.{◌≡◌, IfOk, OnOk};
ghost use Rattle.std.specs.Option.{option_copied};
ghost use Rattle.serde_json.specs.View.{view};
ghost use Rattle.envoy_types.specs.PrincipalForms.{authenticated_faults, authenticated_in, authenticated_written};
ghost use Rattle.envoy_types.specs.StringForms.{string_written};
ghost use Rattle.envoy_types.specs.WrittenFields.{optional_field, with_field};
ghost use Rattle.envoy_types.specs.declared.keys.TheConstants.{PRINCIPAL_NAME};
ghost use Rattle.leaf_json.specs.Fields.{members_of};

use crate::blocks::{BlockForm, block_value};
use crate::fields::{Fields, sole_field};
use crate::form::{Form, Word};
use crate::headers::{HeaderForm, header_value};
use crate::strings::{StringForm, string_to_value};
use crate::values::{MetadataForm, metadata_value};
use envoy_types::keys::{
    AND_IDS, AUTHENTICATED, DIRECT_REMOTE_IP, HEADER, IDS, METADATA, NOT_ID, OR_IDS,
    PRINCIPAL_NAME, REMOTE_IP,
};
use envoy_types::{PrincipalLeaf, StringMatcher};
use mesh_doc::{DocError, Form as JsonForm, Spot, optional_written};
use mesh_text::Memory;
use serde_json::Value;
use std::alloc::Global;

/// The names of all alternatives of a principal.
const KNOWN: &str =
    "and_ids or_ids not_id any authenticated direct_remote_ip header metadata remote_ip";

impl Form for PrincipalLeaf {
    ghost use Rattle.envoy_types.specs.PrincipalForms.{principal_form};
    ghost use Rattle.envoy_types.proofs.PrincipalsBack.{principal-own-names, principal-reads-back, principal-writes};

    ghost form = { principal_form };

    #[tactic(auto, unfolding(mesh_doc::specs::Known::names_of))]
    fn known() -> &'static str {
        KNOWN
    }

    fn word(word: Word) -> &'static str {
        match word {
            Word::And => AND_IDS,
            Word::Or => OR_IDS,
            Word::Parts => IDS,
            Word::Not => NOT_ID,
        }
    }

    #[tactic(auto, unfolding(envoy_types::specs::PrincipalForms::principal_leaf_written))]
    fn write(&self, alloc: Global) -> Result<Value, Memory> {
        match self {
            PrincipalLeaf::Authenticated(name) => {
                sole_field(
                    alloc,
                    AUTHENTICATED,
                    authenticated_value(alloc, name.as_ref())?,
                )
            }
            PrincipalLeaf::DirectRemoteIp(block) => {
                sole_field(alloc, DIRECT_REMOTE_IP, block_value(alloc, block)?)
            }
            PrincipalLeaf::RemoteIp(block) => {
                sole_field(alloc, REMOTE_IP, block_value(alloc, block)?)
            }
            PrincipalLeaf::Header(header) => {
                sole_field(alloc, HEADER, header_value(alloc, header)?)
            }
            PrincipalLeaf::Metadata { path, value } => {
                sole_field(alloc, METADATA, metadata_value(alloc, path, value)?)
            }
        }
    }

    #[tactic(auto, unfolding(envoy_types::specs::PrincipalForms::principal_leaf_faults, envoy_types::specs::PrincipalForms::principal_leaf_in))]
    fn read_at(alloc: Global, key: &str, v: &Value, at: &Spot) -> Result<PrincipalLeaf, DocError> {
        if key == AUTHENTICATED {
            let name = AuthenticatedForm::read(alloc, v, at)?;
            Ok(PrincipalLeaf::Authenticated(name))
        } else if key == DIRECT_REMOTE_IP {
            Ok(PrincipalLeaf::DirectRemoteIp(BlockForm::read(alloc, v, at)?))
        } else if key == HEADER {
            Ok(PrincipalLeaf::Header(HeaderForm::read(alloc, v, at)?))
        } else if key == METADATA {
            let (path, value) = MetadataForm::read(alloc, v, at)?;
            Ok(PrincipalLeaf::Metadata { path, value })
        } else {
            Ok(PrincipalLeaf::RemoteIp(BlockForm::read(alloc, v, at)?))
        }
    }

    ghost own_names = { principal-own-names };

    ghost one_field = { principal-writes };

    ghost reads_back = { principal-reads-back };
}

// A peer that is known (`Principal.Authenticated`).
#[tactic(auto, unfolding(envoy_types::specs::PrincipalForms::authenticated_written))]
fn authenticated_value(alloc: Global, name: Option<&StringMatcher>) -> Result<Value, Memory>
    ensures { IfOk result (λ v. view v ≡ authenticated_written (option_copied name.entry)) }
{
    let mut fields = Fields::new(alloc);
    put_name(alloc, &mut fields, name)?;
    Ok(fields.into_value())
}

// The name of the peer, if there is one.
fn put_name(alloc: Global, fields: &mut Fields, name: Option<&StringMatcher>) -> Result<(), Memory>
    ensures { OnOk result (members_of fields.new
        ≡ with_field (members_of fields.old) (optional_field PRINCIPAL_NAME.now string_written (option_copied name.entry))) }
{
    match name {
        None => Ok(()),
        Some(matcher) => {
            let value = string_to_value(alloc, matcher)?;
            fields.put(alloc, PRINCIPAL_NAME, value)
        }
    }
}

// A peer that is known, with a matcher of its name or without one.
struct AuthenticatedForm;

impl JsonForm for AuthenticatedForm {
    type Out = Option<StringMatcher>;

    ghost faults = { authenticated_faults };

    ghost value = { authenticated_in };

    #[tactic(auto, unfolding(envoy_types::specs::PrincipalForms::authenticated_faults, envoy_types::specs::PrincipalForms::authenticated_in))]
    fn read(alloc: Global, v: &Value, at: &Spot) -> Result<Option<StringMatcher>, DocError> {
        at.only_fields(alloc, v, &[PRINCIPAL_NAME])?;
        optional_written::<StringForm>(alloc, v, PRINCIPAL_NAME, at)
    }
}
