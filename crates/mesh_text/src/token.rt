// Tokens of HTTP.
ghost use Rattle.std.specs.Prelude.{◌≡◌};
ghost use Rattle.std.specs.List.{list_all};
ghost use Rattle.mesh_text.specs.Token.{is_token, is_token_byte};

/// Whether `s` is a token of HTTP (RFC 9110 section 5.6.2), which is not empty.
pub fn is_token(s: &str) -> bool
    ensures { result ≡ is_token s.now }
{
    !s.is_empty() && all_token_bytes(s.as_bytes())
}

fn all_token_bytes(bytes: &[u8]) -> bool
    ensures { result ≡ list_all is_token_byte bytes.now }
{
    bytes.iter().all(|c| is_token_character(*c))
}

fn is_token_character(c: u8) -> bool
    ensures { result ≡ is_token_byte c }
{
    matches!(c, b'a'..=b'z' | b'A'..=b'Z' | b'0'..=b'9') || b"!#$%&'*+-.^_`|~".contains(&c)
}
