ghost use Rattle.std.specs.Prelude.{◌≡◌, ◌≤◌, ◌+◌, ◌^◌, ℕ, length, slice_range, IfOk, OnOk, OnErr};
ghost use Rattle.outside.specs.Fault.{HasCause};
ghost use Rattle.outside.specs.station.Station.{Image, Lines, MomentsSince, Overwrites, IsTornWrite, Follows, Only, SameImages, NoNew, Elapses, Tells};

use crate::Failed;

/// The store's disk and the operator's line, on one clock.
pub trait Station {
    /// Whether it tells its content.
    ghost tells: { Type 0 };

    /// What a read gives.
    ghost seen: { Self → Image };

    /// The lines told, in order.
    ghost told: { Self → Lines };

    /// The images that a crash may leave now.
    ghost leaves: { Self → Image → Type 0 };

    /// The time.
    ghost clock: { Self → ℕ };

    /// Whether lines and an image were a moment since a time.
    ghost moments: { Self → MomentsSince };

    /// How many calls failed.
    ghost faults: { Self → ℕ };

    /// The length of the store in bytes. A store file that is missing has length 0.
    fn size(&mut self) -> Result<u64, Failed>
        ensures size { tells → IfOk result (λ n. n ≡ length (seen self.old)) }
        ensures seen { tells → seen self.new ≡ seen self.old }
        ensures told { tells → told self.new ≡ told self.old }
        ensures crash { tells → SameImages (leaves self.old) (leaves self.new) }
        ensures time { tells → Elapses (clock self.old) (clock self.new)
            (moments self.old) (moments self.new) (told self.new) (leaves self.new) }
        ensures cause { HasCause (faults self.old) (faults self.new) result };

    /// Fills `buf` with the bytes from `at` on. A read past the end is a failure. After `Failed`
    /// what `buf` holds is not known.
    fn read_at(&mut self, at: u64, buf: &mut [u8]) -> Result<(), Failed>
        ensures bytes { tells → OnOk result
            (buf.new ≡ slice_range (seen self.old) at (at + length buf.old)) }
        ensures within { tells → OnOk result (at + length buf.old ≤ length (seen self.old)) }
        ensures seen { tells → seen self.new ≡ seen self.old }
        ensures told { tells → told self.new ≡ told self.old }
        ensures crash { tells → SameImages (leaves self.old) (leaves self.new) }
        ensures time { tells → Elapses (clock self.old) (clock self.new)
            (moments self.old) (moments self.new) (told self.new) (leaves self.new) }
        ensures cause { HasCause (faults self.old) (faults self.new) result };

    /// Writes `bytes` from `at` on, over what is there and past the end. After `Failed` the range
    /// may hold anything.
    fn write_at(&mut self, at: u64, bytes: &[u8]) -> Result<(), Failed>
        requires place { tells → at ≤ length (seen self.old) }
        requires room { at + length bytes.now ≤ 2 ^ 62 }
        ensures written { tells → OnOk result
            (Overwrites (seen self.old) at bytes.now (seen self.new)) }
        ensures torn { tells → OnErr result
            (IsTornWrite at (length bytes.now) (seen self.old) (seen self.new)) }
        ensures told { tells → told self.new ≡ told self.old }
        ensures crash { tells → Follows (IsTornWrite at (length bytes.now))
            (leaves self.old) (leaves self.new) }
        ensures time { tells → Elapses (clock self.old) (clock self.new)
            (moments self.old) (moments self.new) (told self.new) (leaves self.new) }
        ensures cause { HasCause (faults self.old) (faults self.new) result };

    /// Makes all writes so far durable: after Ok a crash leaves what a read gives.
    fn sync(&mut self) -> Result<(), Failed>
        ensures durable { tells → OnOk result (Only (seen self.old) (leaves self.new)) }
        ensures seen { tells → seen self.new ≡ seen self.old }
        ensures told { tells → told self.new ≡ told self.old }
        ensures crash { tells → NoNew (leaves self.old) (leaves self.new) }
        ensures time { tells → Elapses (clock self.old) (clock self.new)
            (moments self.old) (moments self.new) (told self.new) (leaves self.new) }
        ensures cause { HasCause (faults self.old) (faults self.new) result };

    /// Tells the operator a line. After `Failed` it was told or was not.
    fn tell(&mut self, line: &[u8]) -> Result<(), Failed>
        ensures seen { tells → seen self.new ≡ seen self.old }
        ensures told { tells → Tells (told self.old) line.now (told self.new) result }
        ensures crash { tells → SameImages (leaves self.old) (leaves self.new) }
        ensures time { tells → Elapses (clock self.old) (clock self.new)
            (moments self.old) (moments self.new) (told self.new) (leaves self.new) }
        ensures cause { HasCause (faults self.old) (faults self.new) result };

    /// What a read gives is an image that a crash may leave.
    ghost seen_counts: { tells → (s : Self) → leaves s (seen s) };

    /// The lines told with an image of now are a moment since each time up to now.
    ghost counts_now: { tells → (s : Self) (t : ℕ) (c : Image) →
        t ≤ clock s → leaves s c → moments s t (told s) c };

    /// Since now there is no other.
    ghost only_now: { tells → (s : Self) (lines : Lines) (c : Image) →
        moments s (clock s) lines c → (lines ≡ told s) × leaves s c };
}
