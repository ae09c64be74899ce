// String matchers.
ghost use Rattle.std.specs.Prelude.{◌≡◌, ◌≢◌, ◌↔◌, ℕ, List, Some, IfOk, IsTrue, if◌then◌else◌};
ghost use Rattle.std.specs.Str.{str_to_ascii_lowercase};
ghost use Rattle.mesh_policy.specs.Pattern as form;
ghost use Rattle.mesh_policy.specs.declared.pattern.Pattern.TheVariants as Pattern;
ghost use Rattle.envoy_types.specs.Strings as meaning;

use mesh_policy::Pattern;
use mesh_text::{
    Memory, Text, contains, contains_fold, eq_fold, is_prefix, is_prefix_fold, is_suffix,
    is_suffix_fold,
};
use std::alloc::Global;

/// A test of a text (Envoy v3 API, `type.matcher.v3.StringMatcher`).
#[derive(Debug, Drop, PartialEq, Eq, Hash)]
pub struct StringMatcher {
    pub kind: MatchKind,
    pub text: Text,
    /// Whether `A` to `Z` are taken as `a` to `z`, in both texts.
    pub ignore_case: bool,
}

/// Where the matcher's text has to stand.
#[derive(Clone, Copy, Debug, PartialEq, Eq, Hash)]
pub enum MatchKind {
    Exact,
    Prefix,
    Suffix,
    Contains,
}

impl StringMatcher {
    /// The matcher that holds where the pattern does, in folded texts where `fold` says so. Presence is no string
    /// match: the matchers of headers and of values have a form of their own for it.
    pub fn of(alloc: Global, pattern: &Pattern, fold: bool) -> Result<StringMatcher, Memory>
        requires { pattern.now ≢ Pattern.Present }
        ensures value { IfOk result (λ m. meaning.matcher_of pattern.now fold ≡ Some m) }
        ensures holds { IfOk result (λ m. (t : List ℕ) → meaning.string_holds m t
            ≡ (if fold then form.pattern_holds_folded pattern.now t else form.pattern_holds pattern.now t)) }
    {
        match pattern {
            Pattern::Exact(text) => matcher(alloc, MatchKind::Exact, text, fold),
            Pattern::Prefix(text) => matcher(alloc, MatchKind::Prefix, text, fold),
            Pattern::Suffix(text) => matcher(alloc, MatchKind::Suffix, text, fold),
            Pattern::Present => unreachable!(),
        }
    }

    /// Whether it holds for a text. It takes no memory.
    pub fn holds(&self, text: &str) -> bool
        ensures value { result ≡ meaning.string_holds self.now text.now }
        ensures means { IsTrue result ↔ meaning.StringHolds self.now text.now }
    {
        if self.ignore_case {
            holds_folded(self.kind, &self.text, text)
        } else {
            holds_as_written(self.kind, &self.text, text)
        }
    }

    /// An equal matcher of its own.
    pub fn copy(&self, alloc: Global) -> Result<StringMatcher, Memory>
        ensures { IfOk result (λ m. m ≡ self.now) }
    {
        matcher(alloc, self.kind, &self.text, self.ignore_case)
    }
}

fn matcher(
    alloc: Global,
    kind: MatchKind,
    text: &Text,
    ignore_case: bool,
) -> Result<StringMatcher, Memory>
    ensures { IfOk result (λ m. m ≡ record { kind = kind; text = text.now; ignore_case = ignore_case }) }
{
    Ok(StringMatcher {
        kind,
        text: text.copy(alloc)?,
        ignore_case,
    })
}

fn holds_as_written(kind: MatchKind, own: &str, text: &str) -> bool
    ensures value { result ≡ meaning.match_holds kind own.now text.now }
    ensures means { IsTrue result ↔ meaning.MatchHolds kind own.now text.now }
{
    match kind {
        MatchKind::Exact => own == text,
        MatchKind::Prefix => is_prefix(own, text),
        MatchKind::Suffix => is_suffix(own, text),
        MatchKind::Contains => contains(own, text),
    }
}

fn holds_folded(kind: MatchKind, own: &str, text: &str) -> bool
    ensures value { result ≡ meaning.match_holds kind (str_to_ascii_lowercase own.now) (str_to_ascii_lowercase text.now) }
    ensures means { IsTrue result
        ↔ meaning.MatchHolds kind (str_to_ascii_lowercase own.now) (str_to_ascii_lowercase text.now) }
{
    match kind {
        MatchKind::Exact => eq_fold(own, text),
        MatchKind::Prefix => is_prefix_fold(own, text),
        MatchKind::Suffix => is_suffix_fold(own, text),
        MatchKind::Contains => contains_fold(own, text),
    }
}
