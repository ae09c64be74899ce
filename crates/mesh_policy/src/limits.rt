// The limits of what a manifest may hold.
ghost use Rattle.std.specs.Prelude.{◌≡◌};

/// The most entries of a list of a manifest, but of its items.
pub const MOST_ENTRIES: u32 = 2048;

/// The most items of a document.
pub const MOST_ITEMS: u32 = 4096;

/// The most bytes of a match value, a name or a prefix.
pub const MOST_VALUE_BYTES: usize = 1024;

/// The most bytes of an inline key set (RFC 7517, section 5).
pub const MOST_KEY_SET_BYTES: usize = 16384;

/// The most slashes of a value that asks for the principal of a request, issuer and subject joined by one.
pub const MOST_SLASHES: usize = 8;

/// A law: these limits are the numbers that definitions have. The call does nothing.
pub fn fixed_limits()
    ensures entries { MOST_ENTRIES ≡ 2048 }
    ensures items { MOST_ITEMS ≡ 4096 }
    ensures value_bytes { MOST_VALUE_BYTES ≡ 1024 }
    ensures key_set_bytes { MOST_KEY_SET_BYTES ≡ 16384 }
    ensures slashes { MOST_SLASHES ≡ 8 }
{}
