// Texts in byte order, each once.
ghost use Rattle.std.specs.Prelude.{◌≡◌, filter, map, not, IfOk};
ghost use Rattle.std.specs.List.{list_any};
ghost use Rattle.std.specs.Option.{option_copied};
ghost use Rattle.std.specs.Str.{bytes_eq};
ghost use Rattle.mesh_policy.specs.Lists.{distinct_texts, least, text_before};
ghost use Rattle.mesh_select.specs.Least.{lesser};

use mesh_text::Memory;
use std::alloc::Global;
use std::collections::BTreeSet;

/// The texts in byte order, each once.
pub(crate) fn distinct<'a>(alloc: Global, texts: &[&'a str]) -> Result<BTreeSet<&'a str>, Memory>
    ensures { IfOk result (λ s. map (λ t. t.now) s.keys ≡ distinct_texts (map (λ t. t.now) texts.now)) }
{
    let mut set = BTreeSet::new(alloc);
    for text in texts {
        set.insert(*text)?;
    }
    Ok(set)
}

/// The same as a list.
pub(crate) fn distinct_list<'a>(alloc: Global, texts: &[&'a str]) -> Result<Vec<&'a str>, Memory>
    ensures { IfOk result (λ v. map (λ t. t.now) v.items ≡ distinct_texts (map (λ t. t.now) texts.now)) }
{
    let set = distinct(alloc, texts)?;
    Ok(set.into_iter().collect(alloc)?)
}

/// The least text that is in a set.
pub(crate) fn least_within<'a>(texts: &[&'a str], set: &BTreeSet<&'a str>) -> Option<&'a str>
    ensures { option_copied result ≡ least text_before
        (filter (λ text. list_any (bytes_eq text) (map (λ t. t.now) set.now.keys)) (map (λ t. t.now) texts.now)) }
{
    let mut found = None;
    for text in texts {
        if has(set, *text) {
            found = Some(lesser(found, *text));
        }
    }
    found
}

/// The least text that is not in a set.
pub(crate) fn least_without<'a>(texts: &[&'a str], set: &BTreeSet<&'a str>) -> Option<&'a str>
    ensures { option_copied result ≡ least text_before
        (filter (λ text. not (list_any (bytes_eq text) (map (λ t. t.now) set.now.keys))) (map (λ t. t.now) texts.now)) }
{
    let mut found = None;
    for text in texts {
        if !has(set, *text) {
            found = Some(lesser(found, *text));
        }
    }
    found
}

fn has<'a>(set: &BTreeSet<&'a str>, text: &'a str) -> bool
    ensures { result ≡ list_any (bytes_eq text.now) (map (λ t. t.now) set.now.keys) }
{
    set.contains(&text)
}

fn lesser<'a>(found: Option<&'a str>, text: &'a str) -> &'a str
    ensures { result.now ≡ lesser text_before (option_copied found.entry) text.now }
{
    match found {
        Some(least) => { if text < least { text } else { least } }
        None => text,
    }
}
