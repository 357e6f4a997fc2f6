ghost use Rattle.std.specs.Prelude.{◌≡◌, Some};
ghost use Rattle.status.specs.FaultText.{digest_digits as digest_digits_of, id_digits as id_digits_of};

use std::fmt;
use std::marker::Model;
use std::str::from_utf8;

// Hexadecimal digits.
#[derive(Drop)]
pub(crate) struct Digits<const N: usize> {
    digits: [u8; N],
}

impl<const N: usize> Model for Digits<N> {
    ghost use Rattle.std.specs.Prelude.{ℕ, List};
    ghost use Rattle.std.specs.Str.{IsAscii};

    ghost Value = { List ℕ };

    ghost view = { λ d. d.digits };

    ghost invariant = { λ d. IsAscii d.digits };
}

impl<const N: usize> Digits<N> {
    pub(crate) fn as_bytes(&self) -> &[u8]
        ensures { result.now ≡ self.now }
    {
        &self.digits
    }
}

impl<const N: usize> fmt::Display for Digits<N> {
    ghost output = { λ d. Some d };

    fn fmt<W: fmt::Write>(&self, f: &mut fmt::Formatter<W>) -> fmt::Result {
        let Ok(text) = from_utf8(&self.digits) else {
            unreachable!()
        };
        f.write_str(text)
    }
}

// The 32 digits of an id.
pub(crate) fn id_digits(id: &[u8; 16]) -> Digits<32>
    ensures { result ≡ id_digits_of id.now }
{
    let mut digits = [0; 32];
    match hex::encode_to_slice(id, &mut digits) {
        Ok(()) => Digits { digits },
        Err(_) => unreachable!(),
    }
}

// The 64 digits of a digest.
pub(crate) fn digest_digits(digest: &[u8; 32]) -> Digits<64>
    ensures { result ≡ digest_digits_of digest.now }
{
    let mut digits = [0; 64];
    match hex::encode_to_slice(digest, &mut digits) {
        Ok(()) => Digits { digits },
        Err(_) => unreachable!(),
    }
}
