ghost use Rattle.std.specs.Prelude.{◌≡◌, ◌≤◌, length};
ghost use Rattle.turning_points.specs.Ends.{end_points};
ghost use Rattle.turning_points.specs.Points.{is_turn};
ghost use Rattle.segment.specs.segment_rules.Tests.{are_levels, has_ends, has_ends_beside, has_length};

use turning_points::Ends;

/// Whether a residue is as long as so many points ask for.
pub(crate) fn has_length(points: u64, len: usize) -> bool
    ensures { result ≡ has_length points len }
{
    if points <= 3 {
        len as u64 == points
    } else {
        2 <= len
    }
}

// Whether `level` is greater than both, or less than both: both then lie on the same side of it.
fn is_turning(before: u16, level: u16, after: u16) -> bool
    ensures { result ≡ is_turn before level after }
{
    (before < level && after < level) || (level < before && level < after)
}

fn are_levels(e: &Ends, first: u16, second: u16, before: u16, last: u16) -> bool
    ensures { result ≡ are_levels (end_points e.now) first second before last }
{
    (e.first[0] == first && e.first[1] == second) && (e.last[0] == before && e.last[1] == last)
}

fn are_beside(classes: u16, e: &Ends, first: u16, second: u16, before: u16, last: u16) -> bool
    ensures { result ≡ has_ends_beside classes (end_points e.now) first second before last }
{
    (e.first[0] == first && e.last[1] == last)
        && ((is_turning(e.first[1], first, second) && is_turning(e.last[0], last, before))
            && ((e.first[1] < classes && e.last[0] < classes)
                && ((!(e.points == 2) || (e.first[1] == second && e.last[0] == before))
                    && (!(e.points == 3) || (e.first[1] == second && e.last[0] == second)))))
}

/// Whether the ends are those of the residue, which is as long as its rule says.
pub(crate) fn has_ends(classes: u16, e: &Ends, residue: &[u16]) -> bool
    requires one { 1 ≤ e.now.points → 1 ≤ length residue.now }
    requires two { 2 ≤ e.now.points → 2 ≤ length residue.now }
    ensures { result ≡ has_ends classes (end_points e.now) residue.now }
{
    if e.points == 0 {
        return are_levels(e, 0, 0, 0, 0);
    }
    if e.points == 1 {
        return are_levels(e, residue[0], 0, 0, residue[0]);
    }
    let n = residue.len();
    are_beside(
        classes,
        e,
        residue[0],
        residue[1],
        residue[n - 2],
        residue[n - 1],
    )
}
