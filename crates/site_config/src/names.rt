ghost use Rattle.std.specs.Prelude.{◌≡◌};
ghost use Rattle.std.specs.List.{list_all};
ghost use Rattle.site_config.specs.Fields as spec;

use crate::limits::MAX_NAME_BYTES;

/// Whether a number lies from `low` to `high`.
pub fn is_in_limits(low: usize, high: usize, n: usize) -> bool
    ensures { result ≡ spec.is_in_limits low high n }
{
    low <= n && n <= high
}

/// Whether a text is a name: ASCII letters, digits, `-` or `_`.
pub fn is_name(text: &str) -> bool
    ensures { result ≡ spec.is_name text.now }
{
    is_in_limits(1, MAX_NAME_BYTES, text.len()) && are_name_bytes(text.as_bytes())
}

fn are_name_bytes(bytes: &[u8]) -> bool
    ensures { result ≡ list_all spec.is_name_byte bytes.now }
{
    for byte in bytes {
        if !is_name_byte(*byte) {
            return false;
        }
    }
    true
}

fn is_name_byte(byte: u8) -> bool
    ensures { result ≡ spec.is_name_byte byte }
{
    matches!(byte, b'a'..=b'z' | b'A'..=b'Z' | b'0'..=b'9' | b'-' | b'_')
}
