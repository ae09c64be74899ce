// The refusals of selection.
ghost use Rattle.std.specs.Prelude.{◌≡◌, ◌++◌, IfOk, Some, codes, decimal};
ghost use Rattle.std.specs.Option.{option_map};
ghost use Rattle.mesh_policy.specs.SelectFault.{SelectFault as Reason};
ghost use Rattle.mesh_select.specs.SelectError.{Tells};
ghost use Rattle.mesh_select.specs.declared.error.SelectError.TheVariants.{Memory as NoMemory};
ghost use Rattle.mesh_cli.specs.PodName.{pod_text};
ghost use Rattle.mesh_cli.specs.Refusal.{Stops};
ghost use Rattle.mesh_cli.specs.Selection as meaning;
ghost use Rattle.mesh_cli.specs.declared.refusal.Stop.TheVariants.{Memory as OutOfMemory};

use crate::pod_name::PodName;
use crate::refusal::{Stop, refuse};
use mesh_policy::Protocol;
use mesh_select::SelectError;
use mesh_text::{Memory, Text};
use std::alloc::Global;

/// The refusal of a Pod for the reason that selection told, or want of memory.
pub fn refuse_pod(alloc: Global, name: &PodName, error: &SelectError) -> Stop
    ensures refused { (reason : Reason) → Tells error.now (Some reason) → Stops result (meaning.refuses_pod name.now reason) }
    ensures memory { error.now ≡ NoMemory → result ≡ OutOfMemory }
{
    match both_texts(alloc, name, error) {
        Ok(texts) => refuse(alloc, &texts.place, &texts.reason),
        Err(Memory) => Stop::Memory,
    }
}

#[derive(Drop)]
struct Texts {
    place: Text,
    reason: Text,
}

fn both_texts(alloc: Global, name: &PodName, error: &SelectError) -> Result<Texts, Memory>
    ensures place { IfOk result (λ texts. texts.place ≡ pod_text name.now) }
    ensures reason { IfOk result (λ texts. option_map meaning.reason_text (meaning.reason_of error.now) ≡ Some texts.reason) }
{
    Ok(Texts {
        place: name.text(alloc)?,
        reason: reason_text(alloc, error)?,
    })
}

fn reason_text(alloc: Global, error: &SelectError) -> Result<Text, Memory>
    ensures { IfOk result (λ t. option_map meaning.reason_text (meaning.reason_of error.now) ≡ Some t) }
{
    match error {
        SelectError::NoWorkload => Text::of(alloc, "NoWorkload"),
        SelectError::PortConflict {
            port,
            first,
            second,
        } => conflict_text(alloc, *port, *first, *second),
        SelectError::UnknownProvider(name) => named_text(alloc, "UnknownProvider ", name),
        SelectError::TwoProviders(name, other) => two_text(alloc, name, other),
        SelectError::TokenHeaderTested(name) => named_text(alloc, "TokenHeaderTested ", name),
        SelectError::TooManyPorts(ports) => ports_text(alloc, *ports),
        SelectError::TooManyValues {
            values,
            entries,
            bytes,
        } => values_text(alloc, *values, *entries, *bytes),
        SelectError::Memory => Err(Memory),
    }
}

fn conflict_text(
    alloc: Global,
    port: u16,
    first: Protocol,
    second: Protocol,
) -> Result<Text, Memory>
    ensures { IfOk result (λ t. t ≡ codes "PortConflict " ++ decimal port ++ codes " " ++ meaning.protocol_text first
        ++ codes " " ++ meaning.protocol_text second) }
{
    let (first, second) = (protocol_text(first), protocol_text(second));
    let text = format!(in alloc; "PortConflict {port} {first} {second}")?;
    Ok(Text::from_string(text))
}

fn protocol_text(protocol: Protocol) -> &'static str
    ensures { result.now ≡ meaning.protocol_text protocol }
{
    match protocol {
        Protocol::Http => "http",
        Protocol::Tcp => "tcp",
    }
}

fn named_text(alloc: Global, reason: &str, name: &Text) -> Result<Text, Memory>
    ensures { IfOk result (λ t. t ≡ reason.now ++ name.now) }
{
    let name = name.as_str();
    let text = format!(in alloc; "{reason}{name}")?;
    Ok(Text::from_string(text))
}

fn two_text(alloc: Global, name: &Text, other: &Text) -> Result<Text, Memory>
    ensures { IfOk result (λ t. t ≡ codes "TwoProviders " ++ name.now ++ codes " " ++ other.now) }
{
    let (name, other) = (name.as_str(), other.as_str());
    let text = format!(in alloc; "TwoProviders {name} {other}")?;
    Ok(Text::from_string(text))
}

fn ports_text(alloc: Global, ports: u32) -> Result<Text, Memory>
    ensures { IfOk result (λ t. t ≡ codes "TooManyPorts " ++ decimal ports) }
{
    let text = format!(in alloc; "TooManyPorts {ports}")?;
    Ok(Text::from_string(text))
}

fn values_text(alloc: Global, values: u64, entries: u64, bytes: u64) -> Result<Text, Memory>
    ensures { IfOk result (λ t. t ≡ codes "TooManyValues " ++ decimal values ++ codes " " ++ decimal entries
        ++ codes " " ++ decimal bytes) }
{
    let text = format!(in alloc; "TooManyValues {values} {entries} {bytes}")?;
    Ok(Text::from_string(text))
}
