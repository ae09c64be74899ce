// The matcher of the empty text, by which presence is told where a matcher has no form for it.
ghost use Rattle.std.specs.Prelude.{◌≡◌, [], false, IfOk};
ghost use Rattle.envoy_types.specs.Strings.{matcher_with};
ghost use Rattle.envoy_types.specs.declared.strings.MatchKind.TheVariants as kind;

use envoy_types::{MatchKind, StringMatcher};
use mesh_text::{Memory, Text};
use std::alloc::Global;

pub fn no_text(alloc: Global) -> Result<StringMatcher, Memory>
    ensures { IfOk result (λ matcher. matcher ≡ matcher_with kind.Exact [] false) }
{
    Ok(StringMatcher {
        kind: MatchKind::Exact,
        text: Text::of(alloc, "")?,
        ignore_case: false,
    })
}
