// Whether a rule asks for something that only a request has.
ghost use Rattle.std.specs.Prelude.{◌≡◌};
ghost use Rattle.std.specs.List.{list_any};
ghost use Rattle.mesh_policy.specs.RuleHolds as meaning;

use mesh_policy::{Condition, OperationSpec, Rule, SourceSpec, TextKey};

pub fn needs_http(rule: &Rule) -> bool
    ensures { result ≡ meaning.needs_http rule.now }
{
    some_source(&rule.sources)
        || some_operation(&rule.operations)
        || some_condition(&rule.conditions)
}

fn some_source(sources: &[SourceSpec]) -> bool
    ensures { result ≡ list_any meaning.source_needs_http sources.now }
{
    sources.iter().any(|source| source_needs_http(source))
}

fn some_operation(operations: &[OperationSpec]) -> bool
    ensures { result ≡ list_any meaning.operation_needs_http operations.now }
{
    operations
        .iter()
        .any(|operation| operation_needs_http(operation))
}

fn some_condition(conditions: &[Condition]) -> bool
    ensures { result ≡ list_any meaning.condition_needs_http conditions.now }
{
    conditions
        .iter()
        .any(|condition| condition_needs_http(condition))
}

fn source_needs_http(source: &SourceSpec) -> bool
    ensures { result ≡ meaning.source_needs_http source.now }
{
    !source.request_principals.is_empty() || !source.not_request_principals.is_empty()
}

fn operation_needs_http(operation: &OperationSpec) -> bool
    ensures { result ≡ meaning.operation_needs_http operation.now }
{
    !operation.hosts.is_empty()
        || !operation.not_hosts.is_empty()
        || !operation.methods.is_empty()
        || !operation.not_methods.is_empty()
        || !operation.paths.is_empty()
        || !operation.not_paths.is_empty()
}

pub fn condition_needs_http(condition: &Condition) -> bool
    ensures { result ≡ meaning.condition_needs_http condition.now }
{
    match condition {
        Condition::Words { key, .. } => key_needs_http(key),
        Condition::Blocks { .. } | Condition::Ports { .. } => false,
    }
}

fn key_needs_http(key: &TextKey) -> bool
    ensures { result ≡ meaning.key_needs_http key.now }
{
    match key {
        TextKey::SourcePrincipal | TextKey::SourceNamespace | TextKey::Sni => false,
        TextKey::Header(_)
        | TextKey::AuthPrincipal
        | TextKey::Audiences
        | TextKey::Presenter
        | TextKey::Claim(_) => true,
    }
}
