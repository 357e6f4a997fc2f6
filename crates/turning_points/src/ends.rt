ghost use Rattle.std.specs.Prelude.{◌≡◌, ℕ, List, ◌++◌, ◌+◌, ◌<◌, ◌≤◌, ◌^◌};
ghost use Rattle.turning_points.specs.Points.{points};
ghost use Rattle.turning_points.specs.EndPoints.{ends_of, ends_push, ends_of_both, no_ends, ends_prepend};
ghost use Rattle.turning_points.specs.Ends.{end_points};
ghost use Rattle.turning_points.specs.declared.ends.TheConstants.{MAX_POINTS};

use crate::in_place::turns_at;

/// The most points of a history that is joined or counted. The longest recording has fewer than
/// half as many.
pub const MAX_POINTS: u64 = 1 << 41;

/// The number of points of a history, its first two and its last two. For one point `p` they are
/// `[p, 0]` and `[0, p]`, for none all are 0.
#[derive(Clone, Copy, Debug, PartialEq, Eq)]
pub struct Ends {
    pub points: u64,
    pub first: [u16; 2],
    pub last: [u16; 2],
}

/// The ends of a history of which nothing is there.
pub fn no_ends() -> Ends
    ensures { end_points result ≡ no_ends }
{
    Ends {
        points: 0,
        first: [0, 0],
        last: [0, 0],
    }
}

/// The ends of a list of points.
pub fn ends_of(list: &[u16]) -> Ends
    ensures { end_points result ≡ ends_of list.now }
{
    let count = list.len();
    if count == 0 {
        return no_ends();
    }
    if count == 1 {
        return Ends {
            points: 1,
            first: [list[0], 0],
            last: [0, list[0]],
        };
    }
    Ends {
        points: count as u64,
        first: [list[0], list[1]],
        last: [list[count - 2], list[count - 1]],
    }
}

/// The ends after a level was put before.
pub fn put_before(level: u16, ends: &Ends) -> Ends
    requires few { ends.now.points < 2 ^ 63 }
    ensures ends { end_points result ≡ ends_prepend level (end_points ends.now) }
    ensures few { result.points ≤ ends.now.points + 1 }
{
    if ends.points == 0 {
        return Ends {
            points: 1,
            first: [level, 0],
            last: [0, level],
        };
    }
    if level == ends.first[0] {
        return *ends;
    }
    if ends.points == 1 {
        return Ends {
            points: 2,
            first: [level, ends.first[0]],
            last: [level, ends.first[0]],
        };
    }
    if turns_at(level, ends.first[0], ends.first[1]) {
        return Ends {
            points: ends.points + 1,
            first: [level, ends.first[0]],
            last: ends.last,
        };
    }
    if ends.points == 2 {
        return Ends {
            points: 2,
            first: [level, ends.first[1]],
            last: [level, ends.last[1]],
        };
    }
    Ends {
        points: ends.points,
        first: [level, ends.first[1]],
        last: ends.last,
    }
}

/// The ends after a level was put behind.
pub fn put_behind(level: u16, ends: &Ends) -> Ends
    requires few { ends.now.points < 2 ^ 63 }
    ensures { end_points result ≡ ends_push level (end_points ends.now) }
{
    if ends.points == 0 {
        return Ends {
            points: 1,
            first: [level, 0],
            last: [0, level],
        };
    }
    if level == ends.last[1] {
        return *ends;
    }
    if ends.points == 1 {
        return Ends {
            points: 2,
            first: [ends.first[0], level],
            last: [ends.last[1], level],
        };
    }
    let first = ends.first;
    if turns_at(ends.last[0], ends.last[1], level) {
        return Ends {
            points: ends.points + 1,
            first,
            last: [ends.last[1], level],
        };
    }
    if ends.points == 2 {
        return Ends {
            points: 2,
            first: [ends.first[0], level],
            last: [ends.last[0], level],
        };
    }
    Ends {
        points: ends.points,
        first,
        last: [ends.last[0], level],
    }
}

// The left's last two points, put before the right one by one.
fn ends_of_both(left: &Ends, right: &Ends) -> Ends
    requires few { left.now.points + right.now.points ≤ MAX_POINTS }
    ensures { end_points result ≡ ends_of_both (end_points left.now) (end_points right.now) }
{
    if left.points == 0 {
        return *right;
    }
    let joined = put_before(left.last[1], right);
    if left.points == 1 {
        return joined;
    }
    let joined = put_before(left.last[0], &joined);
    if left.points == 2 {
        return joined;
    }
    let first = left.first;
    let last = joined.last;
    Ends {
        points: left.points - 2 + joined.points,
        first,
        last,
    }
}

/// The ends of two histories, one after the other.
pub fn join_ends(left: &Ends, right: &Ends) -> Ends
    requires few { left.now.points + right.now.points ≤ MAX_POINTS }
    ensures meets { end_points result ≡ ends_of_both (end_points left.now) (end_points right.now) }
    ensures histories { (u v : List ℕ) → end_points left.now ≡ ends_of (points u) →
        end_points right.now ≡ ends_of (points v) → end_points result ≡ ends_of (points (u ++ v)) }
{
    ends_of_both(left, right)
}
