ghost use Rattle.std.specs.Prelude.{◌≡◌, ◌≤◌, ◌+◌, length, pos};
ghost use Rattle.std.specs.Int.{w16, w32, w64};
ghost use Rattle.std.specs.Int.RustNames.{FitsSigned};
ghost use Rattle.store_bytes.specs.store_head.HeadFaults.{number, signed_number};

// The numbers at a place, big-endian.
pub(crate) fn u16_in(bytes: &[u8], at: usize) -> u16
    requires { at + 2 ≤ length bytes.now }
    ensures value { result ≡ number w16 at bytes.now }
    ensures fits { FitsSigned w64 (pos result) }
{
    let field = &bytes[at..at + 2];
    u16::from_be_bytes([field[0], field[1]])
}

pub(crate) fn u32_in(bytes: &[u8], at: usize) -> u32
    requires { at + 4 ≤ length bytes.now }
    ensures value { result ≡ number w32 at bytes.now }
    ensures fits { FitsSigned w64 (pos result) }
{
    let field = &bytes[at..at + 4];
    u32::from_be_bytes([field[0], field[1], field[2], field[3]])
}

pub(crate) fn i64_in(bytes: &[u8], at: usize) -> i64
    requires { at + 8 ≤ length bytes.now }
    ensures value { result ≡ signed_number at bytes.now }
    ensures fits { FitsSigned w64 result }
{
    let field = &bytes[at..at + 8];
    let bits = u64::from_be_bytes([
        field[0], field[1], field[2], field[3], field[4], field[5], field[6], field[7],
    ]);
    bits.cast_signed()
}
