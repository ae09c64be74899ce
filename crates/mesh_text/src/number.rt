// Decimal numbers in text.
ghost use Rattle.std.specs.Prelude.{◌≡◌};
ghost use Rattle.mesh_text.specs.Number.{decimal_of};

/// The number that `s` spells in decimal without leading zeros, from 0 to 65,535. None for every other text.
pub fn decimal(s: &str) -> Option<u16>
    ensures { result ≡ decimal_of s.now }
{
    let digits = s.as_bytes();
    if digits.is_empty() || (digits.len() > 1 && digits[0] == b'0') {
        return None;
    }
    let mut number: u32 = 0;
    for digit in digits {
        if !digit.is_ascii_digit() {
            return None;
        }
        number = number * 10 + u32::from(*digit - b'0');
        if number > 65_535 {
            return None;
        }
    }
    Some(number as u16)
}
