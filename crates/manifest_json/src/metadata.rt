// The `metadata` of an item, kind by kind.
ghost use Rattle.std.specs.Prelude.{◌≡◌};
ghost use Rattle.serde_json.specs.Data.{Data};
ghost use Rattle.serde_json.specs.View.{view};
ghost use Rattle.mesh_doc.specs.Faults.{Reads};
ghost use Rattle.mesh_doc.specs.declared.reason.Reason.TheVariants as reasons;
ghost use Rattle.mesh_text.specs.Dns.{is_label, is_subdomain};
ghost use Rattle.manifest_json.specs.Metadata as metadata;

use mesh_doc::{DocError, Form, Reason, Spot, Tested, TextTest, optional, or_empty, required};
use mesh_policy::{DEFAULT_NAMESPACE, Label};
use mesh_text::{List, Text, is_dns_label, is_dns_subdomain, is_time};
use policy_json::Labels;
use serde_json::Value;
use std::alloc::Global;

pub(crate) const NAME: &str = "name";

const NAMESPACE: &str = "namespace";

const LABELS: &str = "labels";

const CREATION_TIMESTAMP: &str = "creationTimestamp";

const ANNOTATIONS: &str = "annotations";

const DRY_RUN: &str = "istio.io/dry-run";

const TRUE_WORD: &str = "true";

/// The name of an item and its namespace.
#[derive(Drop)]
pub struct Names {
    /// A DNS subdomain (RFC 1123, section 2.1), of at most 253 bytes.
    pub name: Text,
    /// A DNS label, of at most 63 bytes: `default` where none is written.
    pub namespace: Text,
}

/// What the metadata of a Pod say.
#[derive(Drop)]
pub struct PodMetadata {
    pub names: Names,
    /// In byte order of their keys.
    pub labels: List<Label>,
}

/// What the metadata of a PeerAuthentication say.
#[derive(Drop)]
pub struct PeerMetadata {
    pub names: Names,
    /// When it was made, in the form of RFC 3339 in UTC and whole seconds.
    pub age: Option<Text>,
}

/// A DNS subdomain, else BadName.
pub(crate) struct IsName;

impl TextTest for IsName {
    ghost passes = { is_subdomain };

    ghost reason = { reasons.BadName };

    fn passes(text: &str) -> bool {
        is_dns_subdomain(text)
    }

    fn reason() -> Reason {
        Reason::BadName
    }
}

pub(crate) type Name = Tested<IsName>;

/// A DNS label, else BadName.
pub(crate) struct IsNamespace;

impl TextTest for IsNamespace {
    ghost passes = { is_label };

    ghost reason = { reasons.BadName };

    fn passes(text: &str) -> bool {
        is_dns_label(text)
    }

    fn reason() -> Reason {
        Reason::BadName
    }
}

pub(crate) type Namespace = Tested<IsNamespace>;

// The names in the object `v` at `at`, or the first of their faults: MissingField, WrongType, BadName.
#[tactic(auto, unfolding(crate::specs::Metadata::names_faults, crate::specs::Metadata::names_in))]
fn read_names(alloc: Global, v: &Value, at: &Spot) -> Result<Names, DocError>
    ensures { Reads result (metadata.names_faults (view v.now) at.now) (metadata.names_in (view v.now)) }
{
    let name = required::<Name>(alloc, v, NAME, at)?;
    let namespace = optional::<Namespace>(alloc, v, NAMESPACE, at)?;
    let namespace = match namespace {
        Some(namespace) => namespace,
        None => Text::of(alloc, DEFAULT_NAMESPACE)?,
    };
    Ok(Names { name, namespace })
}

/// The metadata of a Service or a RequestAuthentication. Faults: WrongType, and those of the names.
pub(crate) struct PlainMeta;

impl Form for PlainMeta {
    type Out = Names;

    ghost faults = { metadata.plain_metadata_faults };

    ghost value = { metadata.names_in };

    #[tactic(auto, unfolding(crate::specs::Metadata::plain_metadata_faults))]
    fn read(alloc: Global, v: &Value, at: &Spot) -> Result<Names, DocError> {
        at.object(alloc, v)?;
        read_names(alloc, v, at)
    }
}

/// The metadata of a Pod. Faults: WrongType, those of the names, and those of its labels.
pub(crate) struct PodMeta;

impl Form for PodMeta {
    type Out = PodMetadata;

    ghost faults = { metadata.pod_metadata_faults };

    ghost value = { metadata.pod_metadata_in };

    #[tactic(auto, unfolding(crate::specs::Metadata::pod_metadata_faults, crate::specs::Metadata::pod_metadata_in))]
    fn read(alloc: Global, v: &Value, at: &Spot) -> Result<PodMetadata, DocError> {
        at.object(alloc, v)?;
        let names = read_names(alloc, v, at)?;
        let labels = or_empty::<Labels>(alloc, v, LABELS, at)?;
        Ok(PodMetadata { names, labels })
    }
}

// A time in UTC and whole seconds (RFC 3339, section 5.6), else BadTime.
struct IsTimestamp;

impl TextTest for IsTimestamp {
    ghost passes = { metadata.is_timestamp };

    ghost reason = { reasons.BadTime };

    #[tactic(auto, unfolding(crate::specs::Metadata::is_timestamp))]
    fn passes(text: &str) -> bool {
        is_time(text)
    }

    fn reason() -> Reason {
        Reason::BadTime
    }
}

/// The metadata of a PeerAuthentication. Faults: WrongType, those of the names, and BadTime.
pub(crate) struct PeerMeta;

impl Form for PeerMeta {
    type Out = PeerMetadata;

    ghost faults = { metadata.peer_metadata_faults };

    ghost value = { metadata.peer_metadata_in };

    #[tactic(auto, unfolding(crate::specs::Metadata::peer_metadata_faults, crate::specs::Metadata::peer_metadata_in))]
    fn read(alloc: Global, v: &Value, at: &Spot) -> Result<PeerMetadata, DocError> {
        at.object(alloc, v)?;
        let names = read_names(alloc, v, at)?;
        let age = optional::<Tested<IsTimestamp>>(alloc, v, CREATION_TIMESTAMP, at)?;
        Ok(PeerMetadata { names, age })
    }
}

// What the annotations and their one value give is that they have no fault.
struct NoDryRun;

impl Form for NoDryRun {
    type Out = ();

    ghost faults = { metadata.dry_run_faults };

    ghost value = { λ (d : Data). tt };

    #[tactic(auto, unfolding(crate::specs::Metadata::dry_run_faults))]
    fn read(alloc: Global, v: &Value, at: &Spot) -> Result<(), DocError> {
        if is_true_word(v) {
            return Err(at.refuse(alloc, Reason::DryRun));
        }
        Ok(())
    }
}

#[tactic(auto, unfolding(crate::specs::Metadata::is_true_word, mesh_doc::specs::Kinds::text_in))]
fn is_true_word(v: &Value) -> bool
    ensures { result ≡ metadata.is_true_word (view v.now) }
{
    match v {
        Value::String(word) => word.as_str() == TRUE_WORD,
        _ => false,
    }
}

struct Annotations;

impl Form for Annotations {
    type Out = ();

    ghost faults = { metadata.annotations_faults };

    ghost value = { λ (d : Data). tt };

    #[tactic(auto, unfolding(crate::specs::Metadata::annotations_faults))]
    fn read(alloc: Global, v: &Value, at: &Spot) -> Result<(), DocError> {
        at.object(alloc, v)?;
        optional::<NoDryRun>(alloc, v, DRY_RUN, at)?;
        Ok(())
    }
}

/// The metadata of an AuthorizationPolicy. Faults: WrongType, those of the names, and DryRun at the annotation that
/// makes the policy a dry run (Istio, "Dry Run").
pub(crate) struct AuthorizationMeta;

impl Form for AuthorizationMeta {
    type Out = Names;

    ghost faults = { metadata.authorization_metadata_faults };

    ghost value = { metadata.names_in };

    #[tactic(auto, unfolding(crate::specs::Metadata::authorization_metadata_faults))]
    fn read(alloc: Global, v: &Value, at: &Spot) -> Result<Names, DocError> {
        at.object(alloc, v)?;
        let names = read_names(alloc, v, at)?;
        or_empty::<Annotations>(alloc, v, ANNOTATIONS, at)?;
        Ok(names)
    }
}
