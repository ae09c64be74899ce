// How much the policies of a workload hold.
ghost use Rattle.std.specs.Prelude.{◌≡◌, ◌==◌, count_by, map};
ghost use Rattle.mesh_policy.specs.Authenticated.{text_of};
ghost use Rattle.mesh_policy.specs.Sizes as sizes;
ghost use Rattle.mesh_policy.specs.Sizes.{Size, sum_of};
ghost use Rattle.mesh_select.specs.Sizes.{Adds, Fits};
ghost use Rattle.mesh_text.specs.Bytes.{slash};

use crate::paired::ByPair;
use mesh_policy::{
    AuthorizationPolicy, Condition, JwtRule, Keys, OperationSpec, Rule, SourceSpec, TextKey,
    TokenPlace,
};
use mesh_text::Text;

/// Match values and places of tokens, entries of lists, and bytes of texts.
#[derive(Clone, Copy, Debug, PartialEq, Eq)]
pub(crate) struct Counts {
    pub(crate) values: u64,
    pub(crate) entries: u64,
    pub(crate) bytes: u64,
}

/// A thing that holds values, entries and bytes.
pub(crate) trait Measured {
    ghost size: { Self → Size };

    /// Adds what it holds.
    fn count(&self, counts: &mut Counts)
        requires { Fits counts.old (size self.now) }
        ensures { Adds counts.old counts.new (size self.now) };
}

pub(crate) fn count_all<T: Measured>(items: &[T], counts: &mut Counts)
    requires { Fits counts.old (sum_of (map T.size items.now)) }
    ensures { Adds counts.old counts.new (sum_of (map T.size items.now)) }
{
    for item in items {
        item.count(counts);
    }
}

impl<'a, T: Measured> Measured for &'a T {
    ghost size = { λ item. T.size item.now };

    fn count(&self, counts: &mut Counts) {
        (*self).count(counts);
    }
}

impl<'a, T: Measured> Measured for ByPair<'a, T> {
    ghost size = { T.size };

    fn count(&self, counts: &mut Counts) {
        self.item.count(counts);
    }
}

fn count_entry(counts: &mut Counts)
    requires { Fits counts.old sizes.one_entry }
    ensures { Adds counts.old counts.new sizes.one_entry }
{
    counts.entries += 1;
}

fn count_plain(number: usize, counts: &mut Counts)
    requires { Fits counts.old (record { values = number; entries = 0; bytes = 0 }) }
    ensures { Adds counts.old counts.new (record { values = number; entries = 0; bytes = 0 }) }
{
    counts.values += number as u64;
}

fn count_text(text: &str, counts: &mut Counts)
    requires { Fits counts.old (sizes.text_size text.now) }
    ensures { Adds counts.old counts.new (sizes.text_size text.now) }
{
    counts.bytes += text.len() as u64;
}

fn count_names(names: &[Text], counts: &mut Counts)
    requires { Fits counts.old (sum_of (map sizes.text_size names.now)) }
    ensures { Adds counts.old counts.new (sum_of (map sizes.text_size names.now)) }
{
    for name in names {
        count_text(name, counts);
    }
}

impl Measured for Text {
    ghost size = { sizes.value_size };

    fn count(&self, counts: &mut Counts) {
        count_plain(1, counts);
        count_text(self.as_str(), counts);
    }
}

fn count_principals(values: &[Text], counts: &mut Counts)
    requires { Fits counts.old (sizes.principals_size values.now) }
    ensures { Adds counts.old counts.new (sizes.principals_size values.now) }
{
    for value in values {
        count_principal(value.as_str(), counts);
    }
}

fn count_principal(value: &str, counts: &mut Counts)
    requires { Fits counts.old (sizes.principal_size value.now) }
    ensures { Adds counts.old counts.new (sizes.principal_size value.now) }
{
    count_plain(1, counts);
    count_plain(slashes(value), counts);
    count_text(value, counts);
}

fn slashes(value: &str) -> usize
    ensures { result ≡ count_by (λ c. c == slash) value.now }
{
    value.as_bytes().iter().filter(|c| **c == b'/').count()
}

impl Measured for SourceSpec {
    ghost size = { sizes.source_size };

    fn count(&self, counts: &mut Counts) {
        count_entry(counts);
        count_all(self.principals.as_slice(), counts);
        count_all(self.not_principals.as_slice(), counts);
        count_principals(&self.request_principals, counts);
        count_principals(&self.not_request_principals, counts);
        count_all(self.namespaces.as_slice(), counts);
        count_all(self.not_namespaces.as_slice(), counts);
        count_plain(self.ip_blocks.len(), counts);
        count_plain(self.not_ip_blocks.len(), counts);
        count_plain(self.remote_ip_blocks.len(), counts);
        count_plain(self.not_remote_ip_blocks.len(), counts);
    }
}

impl Measured for OperationSpec {
    ghost size = { sizes.operation_size };

    fn count(&self, counts: &mut Counts) {
        count_entry(counts);
        count_all(self.hosts.as_slice(), counts);
        count_all(self.not_hosts.as_slice(), counts);
        count_plain(self.ports.len(), counts);
        count_plain(self.not_ports.len(), counts);
        count_all(self.methods.as_slice(), counts);
        count_all(self.not_methods.as_slice(), counts);
        count_all(self.paths.as_slice(), counts);
        count_all(self.not_paths.as_slice(), counts);
    }
}

impl Measured for Condition {
    ghost size = { sizes.condition_size };

    fn count(&self, counts: &mut Counts) {
        count_entry(counts);
        match self {
            Condition::Words {
                key,
                values,
                not_values,
            } => {
                count_key(key, counts);
                count_words(key, values, counts);
                count_words(key, not_values, counts);
            }
            Condition::Blocks {
                values,
                not_values,
                ..
            } => {
                count_plain(values.len(), counts);
                count_plain(not_values.len(), counts);
            }
            Condition::Ports { values, not_values } => {
                count_plain(values.len(), counts);
                count_plain(not_values.len(), counts);
            }
        }
    }
}

fn count_words(key: &TextKey, values: &[Text], counts: &mut Counts)
    requires { Fits counts.old (sizes.words_size key.now values.now) }
    ensures { Adds counts.old counts.new (sizes.words_size key.now values.now) }
{
    match key {
        TextKey::AuthPrincipal => count_principals(values, counts),
        _ => count_all(values, counts),
    }
}

fn count_key(key: &TextKey, counts: &mut Counts)
    requires { Fits counts.old (sizes.key_size key.now) }
    ensures { Adds counts.old counts.new (sizes.key_size key.now) }
{
    match key {
        TextKey::Header(name) => count_text(name, counts),
        TextKey::Claim(names) => count_names(names, counts),
        _ => {}
    }
}

impl Measured for Rule {
    ghost size = { sizes.rule_size };

    fn count(&self, counts: &mut Counts) {
        count_entry(counts);
        count_all(self.sources.as_slice(), counts);
        count_all(self.operations.as_slice(), counts);
        count_all(self.conditions.as_slice(), counts);
    }
}

impl Measured for AuthorizationPolicy {
    ghost size = { sizes.policy_size };

    fn count(&self, counts: &mut Counts) {
        count_all(self.rules.as_slice(), counts);
    }
}

impl Measured for TokenPlace {
    ghost size = { sizes.place_size };

    fn count(&self, counts: &mut Counts) {
        count_plain(1, counts);
        match self {
            TokenPlace::Header { name, prefix } => {
                count_text(name, counts);
                count_text(prefix, counts);
            }
            TokenPlace::Param(name) => count_text(name, counts),
        }
    }
}

impl Measured for JwtRule {
    ghost size = { sizes.jwt_rule_size };

    fn count(&self, counts: &mut Counts) {
        count_entry(counts);
        count_text(&self.issuer, counts);
        count_all(self.audiences.as_slice(), counts);
        count_text(key_text(&self.keys), counts);
        count_all(self.places.as_slice(), counts);
    }
}

fn key_text(keys: &Keys) -> &str
    ensures { result.now ≡ text_of keys.now }
{
    match keys {
        Keys::Inline(set) => set.as_str(),
        Keys::Uri(uri) => uri.as_str(),
    }
}

/// What policies and rules of tokens hold together.
pub(crate) fn counts_of(policies: &[ByPair<'_, AuthorizationPolicy>], rules: &[&JwtRule]) -> Counts
    requires { Fits (record { values = 0; entries = 0; bytes = 0 }) (sizes.size_of policies.now (map (λ r. r.now) rules.now)) }
    ensures { Adds (record { values = 0; entries = 0; bytes = 0 }) result (sizes.size_of policies.now (map (λ r. r.now) rules.now)) }
{
    let mut counts = Counts {
        values: 0,
        entries: 0,
        bytes: 0,
    };
    count_all(policies, &mut counts);
    count_all(rules, &mut counts);
    counts
}
