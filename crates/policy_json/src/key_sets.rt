// The key set of an issuer: by its address, or itself.
ghost use Rattle.std.specs.Prelude.{◌≡◌};
ghost use Rattle.policy_json.specs.KeySets.{keys_of, unless_empty};

use mesh_policy::Keys;
use mesh_text::Text;

/// The text, or None where it is empty.
pub(crate) fn unless_empty(text: Option<Text>) -> Option<Text>
    ensures { result ≡ unless_empty text }
{
    match text {
        Some(text) if text.is_empty() => None,
        other => other,
    }
}

/// The keys by the address of the set or by the set itself, or None unless exactly one of them is there.
pub(crate) fn keys_of(uri: Option<Text>, set: Option<Text>) -> Option<Keys>
    ensures { result ≡ keys_of uri set }
{
    match (uri, set) {
        (Some(uri), None) => Some(Keys::Uri(uri)),
        (None, Some(set)) => Some(Keys::Inline(set)),
        _ => None,
    }
}
