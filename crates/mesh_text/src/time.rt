// Points in time in text.
ghost use Rattle.std.specs.Prelude.{◌≡◌, ◌<◌, ◌+◌, length, IsTrue};
ghost use Rattle.mesh_text.specs.Time.{fits_form, is_clock, is_date, is_time, is_within};

/// Whether `s` is a point in time `YYYY-MM-DDTHH:MM:SSZ` (RFC 3339 section 5.6) with month 01 to 12, day 01 to
/// 31, hour 00 to 23, minute and second 00 to 59. Every month may have 31 days, and there is no leap second.
pub fn is_time(s: &str) -> bool
    ensures { result ≡ is_time s.now }
{
    let bytes = s.as_bytes();
    is_like(b"0000-00-00T00:00:00Z", bytes) && has_date(bytes) && has_clock(bytes)
}

fn is_like(form: &[u8], s: &[u8]) -> bool
    ensures value { result ≡ fits_form form.now s.now }
    ensures length { IsTrue result → length s.now ≡ length form.now }
{
    if form.len() != s.len() {
        return false;
    }
    for i in 0..form.len() {
        let fits = if form[i] == b'0' {
            s[i].is_ascii_digit()
        } else {
            s[i] == form[i]
        };
        if !fits {
            return false;
        }
    }
    true
}

fn has_date(s: &[u8]) -> bool
    requires { length s.now ≡ 20 }
    ensures { result ≡ is_date s.now }
{
    has_within(s, 5, 1, 12) && has_within(s, 8, 1, 31)
}

fn has_clock(s: &[u8]) -> bool
    requires { length s.now ≡ 20 }
    ensures { result ≡ is_clock s.now }
{
    has_within(s, 11, 0, 23) && has_within(s, 14, 0, 59) && has_within(s, 17, 0, 59)
}

fn has_within(s: &[u8], at: usize, low: u16, high: u16) -> bool
    requires { at + 1 < length s.now }
    ensures { result ≡ is_within s.now at low high }
{
    let tens = u16::from(s[at].saturating_sub(b'0'));
    let ones = u16::from(s[at + 1].saturating_sub(b'0'));
    let number = 10 * tens + ones;
    low <= number && number <= high
}
