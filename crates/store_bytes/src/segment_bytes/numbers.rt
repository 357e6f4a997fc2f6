ghost use Rattle.std.specs.Prelude.{◌≡◌, ◌+◌, ◌-◌, ◌≤◌, ◌<◌, ◌^◌, length, IfOk};
ghost use Rattle.std.specs.Int.{w16, w32, w64};
ghost use Rattle.turning_points.specs.Ends.{end_points};
ghost use Rattle.store_bytes.specs.segment_bytes.Fields.{Gives, number_at};
ghost use Rattle.store_bytes.specs.segment_bytes.Grammar.{ends_at, name_and_counts_at};
ghost use Rattle.store_bytes.specs.segment_bytes.Views.{name_and_counts};
ghost use Rattle.store_bytes.specs.declared.segment_bytes.fault.BytesFault.TheVariants.{Short};

use crate::segment_bytes::fault::BytesFault;
use tally::{Bin, Cell};
use turning_points::Ends;

// A number of so many bytes does not fit where `len` of `have` bytes are left.
fn short(have: usize, len: usize, width: usize) -> BytesFault
    requires within { len ≤ have }
    requires small { have < 2 ^ 63 }
    requires narrow { width ≤ 8 }
    ensures { result ≡ Short (have - len + width) have }
{
    BytesFault::Short {
        need: (have - len + width) as u64,
        have: have as u64,
    }
}

#[inline(always)]
pub(crate) fn u16_at(have: usize, bytes: &[u8]) -> Result<(u16, &[u8]), BytesFault>
    requires within { length bytes.now ≤ have }
    requires small { have < 2 ^ 63 }
    ensures reads { Gives (λ x. (x.0, x.1.now)) result (number_at w16 have bytes.now) }
    ensures rest { IfOk result (λ x. length x.1.now ≤ length bytes.now) }
{
    if bytes.len() < 2 {
        return Err(short(have, bytes.len(), 2));
    }
    let (front, rest) = bytes.split_at(2);
    let number = u16::from_be_bytes([front[0], front[1]]);
    Ok((number, rest))
}

pub(crate) fn u32_at(have: usize, bytes: &[u8]) -> Result<(u32, &[u8]), BytesFault>
    requires within { length bytes.now ≤ have }
    requires small { have < 2 ^ 63 }
    ensures reads { Gives (λ x. (x.0, x.1.now)) result (number_at w32 have bytes.now) }
    ensures rest { IfOk result (λ x. length x.1.now ≤ length bytes.now) }
{
    if bytes.len() < 4 {
        return Err(short(have, bytes.len(), 4));
    }
    let (front, rest) = bytes.split_at(4);
    let number = u32::from_be_bytes([front[0], front[1], front[2], front[3]]);
    Ok((number, rest))
}

#[inline(always)]
fn u64_at(have: usize, bytes: &[u8]) -> Result<(u64, &[u8]), BytesFault>
    requires within { length bytes.now ≤ have }
    requires small { have < 2 ^ 63 }
    ensures reads { Gives (λ x. (x.0, x.1.now)) result (number_at w64 have bytes.now) }
    ensures rest { IfOk result (λ x. length x.1.now ≤ length bytes.now) }
{
    if bytes.len() < 8 {
        return Err(short(have, bytes.len(), 8));
    }
    let (front, rest) = bytes.split_at(8);
    let number = u64::from_be_bytes([
        front[0], front[1], front[2], front[3], front[4], front[5], front[6], front[7],
    ]);
    Ok((number, rest))
}

/// What a list in a body has many of: levels, cells or bins.
pub(crate) trait Entry: Sized {
    ghost use Rattle.std.specs.Prelude.{◌≡◌, ◌≤◌, ◌<◌, ◌^◌, ℕ, length, IfOk};
    ghost use Rattle.store_bytes.specs.segment_bytes.Fields.{Gives, Reader};

    // The bytes of one.
    const WIDTH: usize;

    ghost WIDTH: { ℕ };

    ghost some: { 1 ≤ WIDTH };

    // One, and the bytes after it, of a body of so many bytes.
    ghost at: { Reader Self };

    fn entry_of(have: usize, bytes: &[u8]) -> Result<(Self, &[u8]), BytesFault>
        requires within { length bytes.now ≤ have }
        requires small { have < 2 ^ 63 }
        ensures reads { Gives (λ x. (x.0, x.1.now)) result (at have bytes.now) }
        ensures rest { IfOk result (λ x. length x.1.now ≤ length bytes.now) };
}

impl Entry for u16 {
    ghost use Rattle.std.proofs.Common.{lit≤};
    ghost use Rattle.std.specs.Int.{w16};
    ghost use Rattle.store_bytes.specs.segment_bytes.Fields.{number_at};

    const WIDTH: usize = 2;

    ghost WIDTH = { 2 };

    ghost some = { lit≤ tt };

    ghost at = { number_at w16 };

    #[inline(always)]
    fn entry_of(have: usize, bytes: &[u8]) -> Result<(u16, &[u8]), BytesFault> {
        u16_at(have, bytes)
    }
}

impl Entry for Cell {
    ghost use Rattle.std.proofs.Common.{lit≤};
    ghost use Rattle.store_bytes.specs.segment_bytes.Grammar.{cell_at};

    const WIDTH: usize = 12;

    ghost WIDTH = { 12 };

    ghost some = { lit≤ tt };

    ghost at = { cell_at };

    #[inline(always)]
    fn entry_of(have: usize, bytes: &[u8]) -> Result<(Cell, &[u8]), BytesFault> {
        let (lo, rest) = u16_at(have, bytes)?;
        let (hi, rest) = u16_at(have, rest)?;
        let (n, rest) = u64_at(have, rest)?;
        Ok((Cell { lo, hi, n }, rest))
    }
}

impl Entry for Bin {
    ghost use Rattle.std.proofs.Common.{lit≤};
    ghost use Rattle.store_bytes.specs.segment_bytes.Grammar.{bin_at};

    const WIDTH: usize = 10;

    ghost WIDTH = { 10 };

    ghost some = { lit≤ tt };

    ghost at = { bin_at };

    #[inline(always)]
    fn entry_of(have: usize, bytes: &[u8]) -> Result<(Bin, &[u8]), BytesFault> {
        let (key, rest) = u16_at(have, bytes)?;
        let (n, rest) = u64_at(have, rest)?;
        Ok((Bin { key, n }, rest))
    }
}

// The six numbers at the front.
#[derive(Clone, Copy)]
pub(crate) struct NameAndCounts {
    pub(crate) gauge: u16,
    pub(crate) from: u64,
    pub(crate) to: u64,
    pub(crate) used: u64,
    pub(crate) missing: u64,
    pub(crate) refused: u64,
}

#[tactic(auto, unfolding(crate::specs::segment_bytes::Grammar::name_and_counts_at))]
pub(crate) fn name_and_counts_of(
    have: usize,
    bytes: &[u8],
) -> Result<(NameAndCounts, &[u8]), BytesFault>
    requires within { length bytes.now ≤ have }
    requires small { have < 2 ^ 63 }
    ensures reads { Gives (λ x. (name_and_counts x.0, x.1.now)) result
        (name_and_counts_at have bytes.now) }
    ensures rest { IfOk result (λ x. length x.1.now ≤ length bytes.now) }
{
    let (gauge, rest) = u16_at(have, bytes)?;
    let (from, rest) = u64_at(have, rest)?;
    let (to, rest) = u64_at(have, rest)?;
    let (used, rest) = u64_at(have, rest)?;
    let (missing, rest) = u64_at(have, rest)?;
    let (refused, rest) = u64_at(have, rest)?;
    let name_and_counts = NameAndCounts {
        gauge,
        from,
        to,
        used,
        missing,
        refused,
    };
    Ok((name_and_counts, rest))
}

#[tactic(auto, unfolding(crate::specs::segment_bytes::Grammar::ends_at))]
pub(crate) fn ends_of(have: usize, bytes: &[u8]) -> Result<(Ends, &[u8]), BytesFault>
    requires within { length bytes.now ≤ have }
    requires small { have < 2 ^ 63 }
    ensures reads { Gives (λ x. (end_points x.0, x.1.now)) result (ends_at have bytes.now) }
    ensures rest { IfOk result (λ x. length x.1.now ≤ length bytes.now) }
{
    let (points, rest) = u64_at(have, bytes)?;
    let (first, rest) = u16_at(have, rest)?;
    let (second, rest) = u16_at(have, rest)?;
    let (before, rest) = u16_at(have, rest)?;
    let (last, rest) = u16_at(have, rest)?;
    let ends = Ends {
        points,
        first: [first, second],
        last: [before, last],
    };
    Ok((ends, rest))
}
