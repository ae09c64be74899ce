// The workload of a Pod in short, or why there is none.
ghost use Rattle.mesh_policy.specs.AcceptedBundle.{AcceptedBundle};

use call_lines::{Call, Stop, joined, refused};
use manifest_json::read_bundle;
use mesh_doc::Place;
use mesh_policy::{Action, AuthorizationPolicy, Bundle, Mode, Protocol};
use mesh_select::{SelectError, Workload, select};
use mesh_text::List;
use serde_json::Value;
use std::alloc::Global;

/// The workload of the Pod of the namespace and the name that the second and the third argument are. A document that is a
/// list is one in parts.
pub fn answer(alloc: Global, call: &Call) -> Result<String, Stop> {
    match call.value(0)? {
        Value::Array(parts) => of_document(alloc, &joined(alloc, parts.as_slice())?, call),
        document => of_document(alloc, document, call),
    }
}

fn of_document(alloc: Global, document: &Value, call: &Call) -> Result<String, Stop> {
    let whole: Place = List::new(alloc);
    match read_bundle(alloc, document, &whole) {
        Ok(bundle) => selected(alloc, &bundle, call.text(1)?, call.text(2)?),
        Err(error) => refused(alloc, error),
    }
}

fn selected(alloc: Global, bundle: &Bundle, namespace: &str, name: &str) -> Result<String, Stop>
    requires { AcceptedBundle bundle.now }
{
    match select(alloc, bundle, namespace, name) {
        Ok(workload) => shown(alloc, &workload),
        Err(error) => reason(alloc, &error),
    }
}

// The reason, and what it keeps.
fn reason(alloc: Global, error: &SelectError) -> Result<String, Stop> {
    let told = match error {
        SelectError::NoWorkload => format!(in alloc; "NoWorkload")?,
        SelectError::PortConflict {
            port,
            first,
            second,
        } => conflict(alloc, *port, *first, *second)?,
        SelectError::UnknownProvider(name) => format!(in alloc; "UnknownProvider {name}")?,
        SelectError::TwoProviders(name, other) => format!(in alloc; "TwoProviders {name} {other}")?,
        SelectError::TokenHeaderTested(name) => format!(in alloc; "TokenHeaderTested {name}")?,
        SelectError::TooManyPorts(ports) => format!(in alloc; "TooManyPorts {ports}")?,
        SelectError::TooManyValues {
            values,
            entries,
            bytes,
        } => format!(in alloc; "TooManyValues {values} {entries} {bytes}")?,
        SelectError::Memory => return Err(Stop::Memory),
    };
    Ok(told)
}

fn conflict(alloc: Global, port: u16, first: Protocol, second: Protocol) -> Result<String, Stop> {
    let (first, second) = (protocol_word(first), protocol_word(second));
    Ok(format!(in alloc; "PortConflict {port} {first} {second}")?)
}

fn protocol_word(protocol: Protocol) -> &'static str {
    match protocol {
        Protocol::Http => "http",
        Protocol::Tcp => "tcp",
    }
}

fn mode_word(mode: Mode) -> &'static str {
    match mode {
        Mode::Strict => "strict",
        Mode::Permissive => "permissive",
        Mode::Disable => "disable",
    }
}

// The listed ports with what they speak and their modes, the mode of the others, the policies by their actions, the
// issuers and the authorizer.
fn shown(alloc: Global, workload: &Workload) -> Result<String, Stop> {
    let mut out = String::new(alloc);
    for number in workload.listed() {
        push_port(&mut out, workload, *number)?;
    }
    write!(out, "other {}", mode_word(workload.other_mode()))?;
    push_policies(&mut out, "custom", workload.policies(Action::Custom))?;
    push_policies(&mut out, "audit", workload.policies(Action::Audit))?;
    push_policies(&mut out, "deny", workload.policies(Action::Deny))?;
    push_policies(&mut out, "allow", workload.policies(Action::Allow))?;
    push_tokens(&mut out, workload)?;
    Ok(out)
}

fn push_port(out: &mut String, workload: &Workload, number: u16) -> Result<(), Stop> {
    let protocol = protocol_word(workload.protocol(number));
    let mode = mode_word(workload.mode(number));
    write!(out, "{number} {protocol} {mode}; ")?;
    Ok(())
}

fn push_policies(
    out: &mut String,
    action: &str,
    policies: &List<AuthorizationPolicy>,
) -> Result<(), Stop> {
    for policy in policies {
        write!(out, "; {action} {}/{}", policy.namespace, policy.name)?;
    }
    Ok(())
}

fn push_tokens(out: &mut String, workload: &Workload) -> Result<(), Stop> {
    for rule in workload.jwt_rules() {
        write!(out, "; issuer {}", rule.issuer)?;
    }
    if let Some(provider) = workload.provider() {
        write!(out, "; provider {}", provider.name)?;
    }
    Ok(())
}
