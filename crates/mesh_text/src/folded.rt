// The tests of `parts` and equality, with `A` to `Z` taken as `a` to `z`.
ghost use Rattle.std.specs.Prelude.{◌≡◌, ◌↔◌, IsTrue};
ghost use Rattle.std.specs.Str.{bytes_eq, str_to_ascii_lowercase};
ghost use Rattle.mesh_text.specs.Parts.{is_part, is_prefix, is_suffix, IsPart, IsPrefix, IsSuffix};

/// Whether the texts are equal with `A` to `Z` taken as `a` to `z`. No other byte is folded.
pub fn eq_fold(a: &str, b: &str) -> bool
    ensures value { result ≡ bytes_eq (str_to_ascii_lowercase a.now) (str_to_ascii_lowercase b.now) }
    ensures means { IsTrue result ↔ (str_to_ascii_lowercase a.now ≡ str_to_ascii_lowercase b.now) }
{
    equal(a.as_bytes(), b.as_bytes())
}

/// `is_prefix` of the texts folded as by `eq_fold`.
pub fn is_prefix_fold(front: &str, whole: &str) -> bool
    ensures value { result ≡ is_prefix (str_to_ascii_lowercase front.now) (str_to_ascii_lowercase whole.now) }
    ensures means { IsTrue result ↔ IsPrefix (str_to_ascii_lowercase front.now) (str_to_ascii_lowercase whole.now) }
{
    begins_with(front.as_bytes(), whole.as_bytes())
}

/// `is_suffix` of the texts folded as by `eq_fold`.
pub fn is_suffix_fold(end: &str, whole: &str) -> bool
    ensures value { result ≡ is_suffix (str_to_ascii_lowercase end.now) (str_to_ascii_lowercase whole.now) }
    ensures means { IsTrue result ↔ IsSuffix (str_to_ascii_lowercase end.now) (str_to_ascii_lowercase whole.now) }
{
    ends_with(end.as_bytes(), whole.as_bytes())
}

/// `contains` of the texts folded as by `eq_fold`, by the same search.
pub fn contains_fold(part: &str, whole: &str) -> bool
    ensures value { result ≡ is_part (str_to_ascii_lowercase part.now) (str_to_ascii_lowercase whole.now) }
    ensures means { IsTrue result ↔ IsPart (str_to_ascii_lowercase part.now) (str_to_ascii_lowercase whole.now) }
{
    stands_in(part.as_bytes(), whole.as_bytes())
}

fn stands_in(part: &[u8], whole: &[u8]) -> bool
    ensures { result ≡ is_part (str_to_ascii_lowercase part.now) (str_to_ascii_lowercase whole.now) }
{
    for start in 0..whole.len() {
        if begins_with(part, &whole[start..]) {
            return true;
        }
    }
    part.is_empty()
}

fn begins_with(front: &[u8], whole: &[u8]) -> bool
    ensures { result ≡ is_prefix (str_to_ascii_lowercase front.now) (str_to_ascii_lowercase whole.now) }
{
    if whole.len() < front.len() {
        return false;
    }
    equal(front, &whole[..front.len()])
}

fn ends_with(end: &[u8], whole: &[u8]) -> bool
    ensures { result ≡ is_suffix (str_to_ascii_lowercase end.now) (str_to_ascii_lowercase whole.now) }
{
    if whole.len() < end.len() {
        return false;
    }
    equal(end, &whole[whole.len() - end.len()..])
}

fn equal(a: &[u8], b: &[u8]) -> bool
    ensures { result ≡ bytes_eq (str_to_ascii_lowercase a.now) (str_to_ascii_lowercase b.now) }
{
    a.eq_ignore_ascii_case(b)
}
