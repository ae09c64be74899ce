// A port in decimal text, as the keys of `portLevelMtls` and the values of rules write it.
ghost use Rattle.std.specs.Prelude.{◌≡◌};
ghost use Rattle.policy_json.specs.Ports.{port_of};

use mesh_text::decimal;

/// The port that a text is: from 1 to 65,535, in decimal without leading zeros. None for every other text.
pub(crate) fn port_named(text: &str) -> Option<u16>
    ensures { result ≡ port_of text.now }
{
    match decimal(text) {
        Some(port) if port > 0 => Some(port),
        _ => None,
    }
}
