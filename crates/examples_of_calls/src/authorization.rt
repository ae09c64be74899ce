// An AuthorizationPolicy in short: its name, its labels, its action with the provider, and its rules.
use crate::shown::{push_blocks, push_labels, push_ports, push_texts};
use call_lines::Stop;
use mesh_policy::{
    Action, AuthorizationPolicy, BlockKey, Condition, OperationSpec, Rule, SourceSpec, TextKey,
};
use std::alloc::Global;

pub fn shown(alloc: Global, policy: &AuthorizationPolicy) -> Result<String, Stop> {
    let mut out = String::new(alloc);
    write!(out, "{}/{}: ", policy.namespace, policy.name)?;
    push_labels(&mut out, &policy.labels)?;
    out.push_str(action_word(policy.action))?;
    if let Some(provider) = &policy.provider {
        write!(out, " {provider}")?;
    }
    for rule in &policy.rules {
        out.push_str(" |")?;
        push_rule(alloc, &mut out, rule)?;
    }
    Ok(out)
}

fn action_word(action: Action) -> &'static str {
    match action {
        Action::Allow => "allow",
        Action::Deny => "deny",
        Action::Audit => "audit",
        Action::Custom => "custom",
    }
}

fn push_rule(alloc: Global, out: &mut String, rule: &Rule) -> Result<(), Stop> {
    for source in &rule.sources {
        push_source(alloc, out, source)?;
    }
    for operation in &rule.operations {
        push_operation(out, operation)?;
    }
    for condition in &rule.conditions {
        push_condition(alloc, out, condition)?;
    }
    Ok(())
}

fn push_source(alloc: Global, out: &mut String, source: &SourceSpec) -> Result<(), Stop> {
    out.push_str(" from")?;
    push_texts(out, "p", &source.principals)?;
    push_texts(out, "!p", &source.not_principals)?;
    push_texts(out, "r", &source.request_principals)?;
    push_texts(out, "!r", &source.not_request_principals)?;
    push_texts(out, "n", &source.namespaces)?;
    push_texts(out, "!n", &source.not_namespaces)?;
    push_blocks(alloc, out, "ip", &source.ip_blocks)?;
    push_blocks(alloc, out, "!ip", &source.not_ip_blocks)?;
    push_blocks(alloc, out, "remote", &source.remote_ip_blocks)?;
    push_blocks(alloc, out, "!remote", &source.not_remote_ip_blocks)
}

fn push_operation(out: &mut String, operation: &OperationSpec) -> Result<(), Stop> {
    out.push_str(" to")?;
    push_texts(out, "host", &operation.hosts)?;
    push_texts(out, "!host", &operation.not_hosts)?;
    push_ports(out, "port", &operation.ports)?;
    push_ports(out, "!port", &operation.not_ports)?;
    push_texts(out, "method", &operation.methods)?;
    push_texts(out, "!method", &operation.not_methods)?;
    push_texts(out, "path", &operation.paths)?;
    push_texts(out, "!path", &operation.not_paths)
}

fn push_condition(alloc: Global, out: &mut String, condition: &Condition) -> Result<(), Stop> {
    out.push_str(" when")?;
    match condition {
        Condition::Words {
            key,
            values,
            not_values,
        } => {
            push_key(out, key)?;
            push_texts(out, "is", values)?;
            push_texts(out, "!is", not_values)
        }
        Condition::Blocks {
            key,
            values,
            not_values,
        } => {
            out.push_str(block_word(*key))?;
            push_blocks(alloc, out, "is", values)?;
            push_blocks(alloc, out, "!is", not_values)
        }
        Condition::Ports { values, not_values } => {
            out.push_str(" port")?;
            push_ports(out, "is", values)?;
            push_ports(out, "!is", not_values)
        }
    }
}

fn push_key(out: &mut String, key: &TextKey) -> Result<(), Stop> {
    match key {
        TextKey::SourcePrincipal => out.push_str(" principal")?,
        TextKey::SourceNamespace => out.push_str(" namespace")?,
        TextKey::Sni => out.push_str(" sni")?,
        TextKey::Header(name) => write!(out, " {name}")?,
        TextKey::AuthPrincipal => out.push_str(" auth")?,
        TextKey::Audiences => out.push_str(" audiences")?,
        TextKey::Presenter => out.push_str(" presenter")?,
        TextKey::Claim(names) => {
            out.push_str(" claim")?;
            push_texts(out, "at", names)?;
        }
    }
    Ok(())
}

fn block_word(key: BlockKey) -> &'static str {
    match key {
        BlockKey::SourceIp => " source",
        BlockKey::RemoteIp => " remote",
        BlockKey::DestinationIp => " destination",
    }
}
