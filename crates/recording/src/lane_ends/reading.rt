ghost use Rattle.std.specs.Prelude.{◌≡◌, ◌≢◌, ◌≤◌, length};
ghost use Rattle.outside.specs.Fault.{CountRose};
ghost use Rattle.recording.specs.Samples.{samples};
ghost use Rattle.recording.specs.Filling.{SameFirst};
ghost use Rattle.recording.specs.lane_ends.Ends.{end_past_limit, IsRead};
ghost use Rattle.recording.specs.declared.lane_ends.end.End.TheVariants.{More, ReadFault};

use crate::lane_ends::{End, LaneRead};
use crate::{FillEnd, fill};
use outside::Source;

// What follows the last sample that a recording may have.
fn past_limit<S: Source>(src: &mut S) -> End
    ensures end { S.tells → result ≢ ReadFault → result ≡ end_past_limit (S.left src.old) }
    ensures some { result ≢ More }
    ensures cause { result ≡ ReadFault → CountRose (S.faults src.old) (S.faults src.new) }
    ensures steady { result ≢ ReadFault → S.faults src.new ≡ S.faults src.old }
    ensures later { S.faults src.old ≤ S.faults src.new }
    ensures number { S.number src.new ≡ S.number src.old }
{
    match fill(src, &mut [0]).end {
        FillEnd::More => End::TooLong,
        FillEnd::Ended => End::Ended,
        FillEnd::Torn(bytes) => End::Torn(bytes),
        FillEnd::Failed => End::ReadFault,
    }
}

/// Fills `buf` with the next samples of a recording that may have `most` more. `TooLong` comes only
/// where these came and one more is there; that one is taken and lost. What the source has left
/// after any other end than `More` is left open.
pub fn read_samples<S: Source>(src: &mut S, buf: &mut [i32], most: u64) -> LaneRead
    ensures within { (result.n ≤ length buf.old) × (result.n ≤ most) }
    ensures full { result.end ≡ More → result.n ≡ length buf.old }
    ensures samples { S.tells → SameFirst result.n buf.new (samples (S.left src.old)) }
    ensures gives { S.tells → IsRead (length buf.old) most (S.left src.old)
        result.n result.end (S.left src.new) }
    ensures cause { result.end ≡ ReadFault → CountRose (S.faults src.old) (S.faults src.new) }
    ensures steady { result.end ≢ ReadFault → S.faults src.new ≡ S.faults src.old }
    ensures later { S.faults src.old ≤ S.faults src.new }
    ensures number { S.number src.new ≡ S.number src.old }
{
    let room = (buf.len() as u64).min(most) as usize;
    let read = fill(src, &mut buf[..room]);
    let end = match read.end {
        FillEnd::More if room == buf.len() => End::More,
        FillEnd::More => past_limit(src),
        FillEnd::Ended => End::Ended,
        FillEnd::Torn(bytes) => End::Torn(bytes),
        FillEnd::Failed => End::ReadFault,
    };
    LaneRead { n: read.n, end }
}
