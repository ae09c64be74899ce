// The `spec` of a PeerAuthentication.
ghost use Rattle.std.specs.Prelude.{◌≡◌, IfOk, IsTrue, option_map};
ghost use Rattle.std.specs.Option.{ForSome};
ghost use Rattle.serde_json.specs.View.{view};
ghost use Rattle.mesh_doc.specs.Faults.{Reads};
ghost use Rattle.mesh_doc.specs.Fields.{spec_of, unless_null};
ghost use Rattle.mesh_policy.specs.AcceptedBundle.{AcceptedPeer};
ghost use Rattle.mesh_text.specs.Dns.{is_label, is_subdomain};
ghost use Rattle.mesh_text.specs.Time.{is_time};
ghost use Rattle.policy_json.specs.Peer.{mode_faults, mode_in, mtls_faults, mtls_in, mode_of, port_faults, port_in, ports_faults, ports_in, peer_faults, peer_in};

use crate::labels::{SELECTOR, Selector};
use crate::ports::port_named;
use mesh_doc::{DocError, Entry, Form, Place, Reason, Spot, empty_object, members, optional};
use mesh_policy::{Mode, PeerAuthentication, PortMode};
use mesh_text::{List, Text};
use serde_json::Value;
use std::alloc::Global;

const MTLS: &str = "mtls";

const PORT_LEVEL_MTLS: &str = "portLevelMtls";

const MODE: &str = "mode";

const UNSET: &str = "UNSET";

const DISABLE: &str = "DISABLE";

const PERMISSIVE: &str = "PERMISSIVE";

const STRICT: &str = "STRICT";

/// The PeerAuthentication that the `spec` at `at` means (Istio reference, PeerAuthentication), or its first
/// fault: UnknownField, WrongType, BadEnum, BadPort. None stands for a `spec` that is not written or `null`.
pub fn read_peer_at(
    alloc: Global,
    name: Text,
    namespace: Text,
    age: Option<Text>,
    spec: Option<&Value>,
    at: &Spot,
) -> Result<PeerAuthentication, DocError>
    ensures reads { Reads result
        (peer_faults (spec_of (option_map (λ v. view v.now) spec.entry)) at.now)
        (peer_in name namespace age (spec_of (option_map (λ v. view v.now) spec.entry))) }
    ensures accepted { IsTrue (is_subdomain name) → IsTrue (is_label namespace) → ForSome age (λ time. IsTrue (is_time time))
        → IfOk result AcceptedPeer }
{
    let empty = empty_object(alloc);
    read_spec(alloc, name, namespace, age, spec.unwrap_or(&empty), at)
}

/// As `read_peer_at`, of the `spec` at `place`.
pub fn read_peer(
    alloc: Global,
    name: Text,
    namespace: Text,
    age: Option<Text>,
    spec: Option<&Value>,
    place: &Place,
) -> Result<PeerAuthentication, DocError>
    ensures reads { Reads result
        (peer_faults (spec_of (option_map (λ v. view v.now) spec.entry)) place.now)
        (peer_in name namespace age (spec_of (option_map (λ v. view v.now) spec.entry))) }
    ensures accepted { IsTrue (is_subdomain name) → IsTrue (is_label namespace) → ForSome age (λ time. IsTrue (is_time time))
        → IfOk result AcceptedPeer }
{
    read_peer_at(alloc, name, namespace, age, spec, &Spot::of(place))
}

#[tactic(auto, unfolding(crate::specs::Peer::peer_faults, crate::specs::Peer::peer_in))]
fn read_spec(
    alloc: Global,
    name: Text,
    namespace: Text,
    age: Option<Text>,
    v: &Value,
    at: &Spot,
) -> Result<PeerAuthentication, DocError>
    ensures { Reads result
        (peer_faults (view v.now) at.now)
        (peer_in name namespace age (view v.now)) }
{
    at.only_fields(alloc, v, &[SELECTOR, MTLS, PORT_LEVEL_MTLS])?;
    let labels = optional::<Selector>(alloc, v, SELECTOR, at)?;
    let mode = optional::<Mtls>(alloc, v, MTLS, at)?;
    let ports = optional::<Ports>(alloc, v, PORT_LEVEL_MTLS, at)?;
    Ok(PeerAuthentication {
        name,
        namespace,
        age,
        labels: labels.unwrap_or(List::new(alloc)),
        mode: mode.unwrap_or(None),
        ports: ports.unwrap_or(List::new(alloc)),
    })
}

struct ModeWord;

impl Form for ModeWord {
    type Out = Option<Mode>;

    ghost faults = { mode_faults };

    ghost value = { mode_in };

    #[tactic(auto, unfolding(crate::specs::Peer::mode_faults, crate::specs::Peer::mode_in, mesh_doc::specs::Kinds::text_faults, mesh_doc::specs::Kinds::text_in))]
    fn read(alloc: Global, v: &Value, at: &Spot) -> Result<Option<Mode>, DocError> {
        let Value::String(word) = v else {
            return Err(at.refuse(alloc, Reason::WrongType));
        };
        match mode_named(word.as_str()) {
            Some(mode) => Ok(mode),
            None => Err(at.refuse(alloc, Reason::BadEnum)),
        }
    }
}

// The mode of that name, with None for UNSET.
fn mode_named(word: &str) -> Option<Option<Mode>>
    ensures { result ≡ mode_of word.now }
{
    if word == UNSET {
        return Some(None);
    }
    if word == DISABLE {
        return Some(Some(Mode::Disable));
    }
    if word == PERMISSIVE {
        return Some(Some(Mode::Permissive));
    }
    if word == STRICT {
        return Some(Some(Mode::Strict));
    }
    None
}

struct Mtls;

impl Form for Mtls {
    type Out = Option<Mode>;

    ghost faults = { mtls_faults };

    ghost value = { mtls_in };

    #[tactic(auto, unfolding(crate::specs::Peer::mtls_faults, crate::specs::Peer::mtls_in))]
    fn read(alloc: Global, v: &Value, at: &Spot) -> Result<Option<Mode>, DocError> {
        at.only_fields(alloc, v, &[MODE])?;
        let mode = optional::<ModeWord>(alloc, v, MODE, at)?;
        Ok(mode.unwrap_or(None))
    }
}

struct PortEntry;

impl Entry for PortEntry {
    type Out = PortMode;

    ghost faults = { port_faults };

    ghost value = { port_in };

    #[tactic(auto, unfolding(crate::specs::Peer::port_faults, crate::specs::Peer::port_in))]
    fn read(alloc: Global, key: &str, v: &Value, at: &Spot) -> Result<PortMode, DocError> {
        let Some(port) = port_named(key) else {
            return Err(at.refuse(alloc, Reason::BadPort));
        };
        let empty = empty_object(alloc);
        let mtls = unless_null(v).unwrap_or(&empty);
        Ok(PortMode {
            port,
            mode: Mtls::read(alloc, mtls, at)?,
        })
    }
}

fn unless_null(v: &Value) -> Option<&Value>
    ensures { option_map (λ x. view x.now) result ≡ unless_null (view v.now) }
{
    match v {
        Value::Null => None,
        found => Some(found),
    }
}

struct Ports;

impl Form for Ports {
    type Out = List<PortMode>;

    ghost faults = { ports_faults };

    ghost value = { ports_in };

    #[tactic(auto, unfolding(crate::specs::Peer::ports_faults, crate::specs::Peer::ports_in))]
    fn read(alloc: Global, v: &Value, at: &Spot) -> Result<List<PortMode>, DocError> {
        members::<PortEntry>(alloc, v, at)
    }
}
