// Where one text stands in another.
ghost use Rattle.std.specs.Prelude.{◌≡◌, ◌↔◌, IsTrue};
ghost use Rattle.std.specs.Str.{bytes_eq, str_to_ascii_lowercase};
ghost use Rattle.mesh_text.specs.Parts.{is_part, is_prefix, is_suffix, IsPart, IsPrefix, IsSuffix};

/// Whether `whole` begins with `front`, byte by byte.
pub fn is_prefix(front: &str, whole: &str) -> bool
    ensures value { result ≡ is_prefix front.now whole.now }
    ensures means { IsTrue result ↔ IsPrefix front.now whole.now }
{
    begins_with(front.as_bytes(), whole.as_bytes())
}

/// Whether `whole` ends with `end`, byte by byte.
pub fn is_suffix(end: &str, whole: &str) -> bool
    ensures value { result ≡ is_suffix end.now whole.now }
    ensures means { IsTrue result ↔ IsSuffix end.now whole.now }
{
    whole.as_bytes().ends_with(end.as_bytes())
}

/// Whether `part` stands anywhere in `whole`. The empty text stands in each. The plain search: it looks at
/// no byte of `whole` more often than `part` is long.
pub fn contains(part: &str, whole: &str) -> bool
    ensures value { result ≡ is_part part.now whole.now }
    ensures means { IsTrue result ↔ IsPart part.now whole.now }
{
    stands_in(part.as_bytes(), whole.as_bytes())
}

fn stands_in(part: &[u8], whole: &[u8]) -> bool
    ensures { result ≡ is_part part.now whole.now }
{
    for start in 0..whole.len() {
        if begins_with(part, &whole[start..]) {
            return true;
        }
    }
    part.is_empty()
}

fn begins_with(front: &[u8], whole: &[u8]) -> bool
    ensures { result ≡ is_prefix front.now whole.now }
{
    whole.starts_with(front)
}
