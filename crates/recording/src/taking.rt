ghost use Rattle.std.specs.Prelude.{◌≡◌, ◌≢◌, ◌≤◌, ◌*◌, ◌/◌, ◌++◌, ◌↔◌, [], length, take};
ghost use Rattle.outside.specs.Fault.{CountRose};
ghost use Rattle.recording.specs.Filling.{SameFirst, Skips};
ghost use Rattle.recording.specs.declared.taking.Stop.TheVariants.{Full, Ended, Failed};

use crate::ends::{Fill, FillEnd};
use outside::Source;

/// Bytes of a buffer on the stack, for few samples and for many.
pub(crate) const SMALL: usize = 4096;

pub(crate) const LARGE: usize = 65536;

/// How far takes have filled a buffer of bytes.
#[derive(Clone, Copy, Debug, PartialEq, Eq)]
pub struct ByteFill {
    /// So many bytes were put into the buffer's front.
    pub n: usize,
    pub stop: Stop,
}

/// Why no more bytes were taken.
#[derive(Clone, Copy, Debug, PartialEq, Eq)]
pub enum Stop {
    /// The buffer is full.
    Full,
    /// The input has ended.
    Ended,
    /// A take failed.
    Failed,
}

/// Takes until the buffer is full, input ends or a take fails.
pub fn take_all<S: Source>(src: &mut S, bytes: &mut [u8]) -> ByteFill
    ensures length { length bytes.new ≡ length bytes.old }
    ensures within { result.n ≤ length bytes.old }
    ensures bytes { S.tells → S.left src.old ≡ take result.n bytes.new ++ S.left src.new }
    ensures full { (result.stop ≡ Full) ↔ (result.n ≡ length bytes.old) }
    ensures ended { S.tells → result.stop ≡ Ended → S.left src.new ≡ [] }
    ensures cause { result.stop ≡ Failed → CountRose (S.faults src.old) (S.faults src.new) }
    ensures last { result.stop ≡ Failed → S.failed_last src.new }
    ensures steady { result.stop ≢ Failed → S.faults src.new ≡ S.faults src.old }
    ensures later { S.faults src.old ≤ S.faults src.new }
    ensures number { S.number src.new ≡ S.number src.old }
{
    let mut n = 0;
    while n < bytes.len() {
        match src.take(&mut bytes[n..]) {
            Ok(0) => return ByteFill {
                n,
                stop: Stop::Ended,
            },
            Ok(taken) => n += taken,
            Err(_) => return ByteFill {
                n,
                stop: Stop::Failed,
            },
        }
    }
    ByteFill {
        n,
        stop: Stop::Full,
    }
}

/// Takes whole samples, as bytes, until the buffer is full or an end comes as in `fill`.
pub(crate) fn take_samples<S: Source>(src: &mut S, bytes: &mut [u8]) -> Fill
    requires { length bytes.old ≡ 4 * (length bytes.old / 4) }
    ensures length { length bytes.new ≡ length bytes.old }
    ensures bytes { S.tells → SameFirst (4 * result.n) bytes.new (S.left src.old) }
    ensures samples { Skips ⟦<S as Source>⟧ src.old src.new
        (length bytes.old / 4) result.n result.end }
{
    let taken = take_all(src, bytes);
    let end = match taken.stop {
        Stop::Full => FillEnd::More,
        Stop::Ended => match taken.n % 4 {
            0 => FillEnd::Ended,
            part => FillEnd::Torn(part as u8),
        },
        Stop::Failed => FillEnd::Failed,
    };
    Fill {
        n: taken.n / 4,
        end,
    }
}
