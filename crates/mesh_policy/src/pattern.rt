// String forms of match values.
ghost use Rattle.std.specs.Prelude.{◌≡◌, ◌≢◌, ◌↔◌, [], false, IfOk, IsTrue};
ghost use Rattle.mesh_policy.specs.Pattern as form;

use mesh_text::{Memory, Text, eq_fold, is_prefix, is_prefix_fold, is_suffix, is_suffix_fold};
use std::alloc::Global;

/// A string form of a match value (Istio reference, Authorization Policy, "Exact match, prefix match,
/// suffix match and presence match"). No text in it is empty where `Pattern::parse` made it.
#[derive(Debug, Drop, PartialEq, Eq)]
pub enum Pattern {
    /// The text itself.
    Exact(Text),
    /// Every text that begins with this one.
    Prefix(Text),
    /// Every text that ends with this one.
    Suffix(Text),
    /// Every text that is not empty.
    Present,
}

impl Pattern {
    /// Reads a match value. A leading star wins over one at the end, and every other star is a plain
    /// character: `*a*` is the suffix `a*`.
    pub fn parse(alloc: Global, s: &str) -> Result<Pattern, Memory>
        requires { s.now ≢ [] }
        ensures value { IfOk result (λ p. p ≡ form.pattern_of s.now) }
        ensures texts { IfOk result form.HasNoEmptyText }
    {
        if s == "*" {
            return Ok(Pattern::Present);
        }
        match s.strip_prefix('*') {
            Some(end) => Ok(Pattern::Suffix(Text::of(alloc, end)?)),
            None => parse_unstarred(alloc, s),
        }
    }

    /// Whether the form holds for a text, byte by byte. It takes no memory.
    pub fn holds(&self, text: &str) -> bool
        ensures value { result ≡ form.pattern_holds self.now text.now }
        ensures means { IsTrue result ↔ form.PatternHolds self.now text.now }
    {
        match self {
            Pattern::Exact(whole) => whole.as_str() == text,
            Pattern::Prefix(front) => is_prefix(front, text),
            Pattern::Suffix(end) => is_suffix(end, text),
            Pattern::Present => !text.is_empty(),
        }
    }

    /// `holds` with `A` to `Z` taken as `a` to `z` in both texts, as hosts are compared.
    pub fn holds_folded(&self, text: &str) -> bool
        ensures value { result ≡ form.pattern_holds_folded self.now text.now }
        ensures means { IsTrue result ↔ form.PatternHoldsFolded self.now text.now }
    {
        match self {
            Pattern::Exact(whole) => eq_fold(whole, text),
            Pattern::Prefix(front) => is_prefix_fold(front, text),
            Pattern::Suffix(end) => is_suffix_fold(end, text),
            Pattern::Present => !text.is_empty(),
        }
    }
}

// a match value without a star in front
fn parse_unstarred(alloc: Global, s: &str) -> Result<Pattern, Memory>
    requires written { s.now ≢ [] }
    requires unstarred { form.begins_with_star s.now ≡ false }
    ensures value { IfOk result (λ p. p ≡ form.unstarred_pattern_of s.now) }
    ensures texts { IfOk result form.HasNoEmptyText }
{
    match s.strip_suffix('*') {
        Some(front) => Ok(Pattern::Prefix(Text::of(alloc, front)?)),
        None => Ok(Pattern::Exact(Text::of(alloc, s)?)),
    }
}
