ghost use Rattle.std.specs.Prelude.{◌≡◌, ℕ, ◌+◌, ◌-◌, ◌^◌, ◌<◌, ◌≤◌, nat_le, if◌then◌else◌, All, length, slice_index, sum, take};
ghost use Rattle.turning_points.specs.Points.{points};
ghost use Rattle.turning_points.specs.EndPoints.{last_point};
ghost use Rattle.tally.specs.tables.Tables.{raise};
ghost use Rattle.simple_counts.specs.level_crossing.Crossings.{crossings, start_level, has_level};
ghost use Rattle.simple_counts.specs.level_crossing.Halves.{HasExtremes, IsOpen, IsSettled};
ghost use Rattle.simple_counts.specs.level_crossing.Extremes.{extremes_at};
ghost use Rattle.turning_points.specs.declared.ends.TheConstants.{MAX_POINTS};

// One more in one of two tables.
#[inline(always)]
fn raise_either(begins: &mut [u64], stops: &mut [u64], begin: bool, low: usize, high: usize)
    requires low { low < length begins.old }
    requires high { high < length stops.old }
    requires begins { slice_index begins.old low < 2 ^ 63 }
    requires stops { slice_index stops.old high < 2 ^ 63 }
    ensures begins { begins.new ≡ if begin then raise begins.old low else begins.old }
    ensures stops { stops.new ≡ if begin then stops.old else raise stops.old high }
{
    if begin {
        begins[low] += 1;
    } else {
        stops[high] += 1;
    }
}

// Counts each inner point at the place behind it, and says how many of them are bottoms. Nothing
// was counted before.
fn count_inner(begins: &mut [u64], stops: &mut [u64], reference: usize, list: &[u16]) -> usize
    requires own { points list.now ≡ list.now }
    requires below { All (λ level. level + 1 < length begins.old) list.now }
    requires same { length stops.old ≡ length begins.old }
    requires many { 2 ≤ length list.now }
    requires few { length list.now ≤ MAX_POINTS }
    requires begins { (k : ℕ) → slice_index begins.old k ≡ 0 }
    requires stops { (k : ℕ) → slice_index stops.old k ≡ 0 }
    ensures all { IsOpen reference begins.new stops.new result (length list.now - 2 - result)
        list.now (length list.now - 1) }
    ensures extremes { HasExtremes reference begins.new stops.new list.now }
    ensures bottoms { result + 2 ≤ length list.now }
    ensures begins_length { length begins.new ≡ length begins.old }
    ensures stops_length { length stops.new ≡ length stops.old }
    ensures begins_few { (k : ℕ) → slice_index begins.new k ≤ MAX_POINTS }
    ensures stops_few { (k : ℕ) → slice_index stops.new k ≤ MAX_POINTS }
{
    let mut bottoms = 0;
    for i in 1..list.len() - 1 {
        let bottom = list[i] < list[i - 1];
        let place = usize::from(list[i]) + 1;
        raise_either(begins, stops, bottom, place, place);
        bottoms += usize::from(bottom);
    }
    bottoms
}

// Reads the extremes off the tables of the inner points: tops from the reference on, and bottoms
// below it.
fn put_extremes(extremes: &mut [u64], begins: &[u64], stops: &[u64], reference: usize)
    requires begins { length begins.now ≡ length extremes.old + 1 }
    requires stops { length stops.now ≡ length extremes.old + 1 }
    ensures extremes { (k : ℕ) → k < length extremes.new → slice_index extremes.new k ≡
        slice_index (if nat_le reference k then stops.now else begins.now) (k + 1) }
    ensures length { length extremes.new ≡ length extremes.old }
{
    for k in 0..extremes.len() {
        extremes[k] = if reference <= k {
            stops[k + 1]
        } else {
            begins[k + 1]
        };
    }
}

// Counts what the inner points leave: their other halves, at the reference, and the halves at both
// ends.
fn count_outer(
    begins: &mut [u64],
    stops: &mut [u64],
    reference: usize,
    list: &[u16],
    bottoms: usize,
)
    requires below { All (λ level. level + 1 < length begins.old) list.now }
    requires same { length stops.old ≡ length begins.old }
    requires reference { reference < length begins.old }
    requires many { 2 ≤ length list.now }
    requires few { length list.now ≤ MAX_POINTS }
    requires all { IsOpen reference begins.old stops.old bottoms (length list.now - 2 - bottoms)
        list.now (length list.now - 1) }
    requires bottoms { bottoms + 2 ≤ length list.now }
    requires begins_few { (k : ℕ) → slice_index begins.old k ≤ MAX_POINTS }
    requires stops_few { (k : ℕ) → slice_index stops.old k ≤ MAX_POINTS }
    ensures counts { (l : ℕ) → sum (take (l + 1) begins.new) ≡
        sum (take (l + 1) stops.new) + crossings reference l list.now }
    ensures begins_length { length begins.new ≡ length begins.old }
    ensures stops_length { length stops.new ≡ length stops.old }
{
    let count = list.len();
    let first = usize::from(list[0]) + 1;
    let last = usize::from(list[count - 1]) + 1;
    let rises = list[0] < list[1];
    let falls = list[count - 1] < list[count - 2];
    begins[reference] += bottoms as u64;
    stops[reference] += (count - 2 - bottoms) as u64;
    raise_either(
        begins,
        stops,
        rises,
        first.max(reference),
        first.min(reference),
    );
    raise_either(
        begins,
        stops,
        falls,
        last.min(reference),
        last.max(reference),
    );
}

// Counts the steps of a list of points, half by half, and its extremes.
fn count_steps(
    begins: &mut [u64],
    stops: &mut [u64],
    extremes: &mut [u64],
    reference: usize,
    list: &[u16],
)
    requires own { points list.now ≡ list.now }
    requires below { All (λ level. level + 1 < length begins.old) list.now }
    requires same { length stops.old ≡ length begins.old }
    requires places { length begins.old ≡ length extremes.old + 1 }
    requires reference { reference < length begins.old }
    requires few { length list.now ≤ MAX_POINTS }
    requires begins { (k : ℕ) → slice_index begins.old k ≡ 0 }
    requires stops { (k : ℕ) → slice_index stops.old k ≡ 0 }
    ensures counts { (l : ℕ) → sum (take (l + 1) begins.new) ≡
        sum (take (l + 1) stops.new) + crossings reference l list.now }
    ensures extremes { (k : ℕ) → k < length extremes.new →
        slice_index extremes.new k ≡ extremes_at reference k list.now }
    ensures begins_length { length begins.new ≡ length begins.old }
    ensures stops_length { length stops.new ≡ length stops.old }
    ensures extremes_length { length extremes.new ≡ length extremes.old }
{
    if list.len() < 2 {
        extremes.fill(0);
        return;
    }
    let bottoms = count_inner(begins, stops, reference, list);
    put_extremes(extremes, begins, stops, reference);
    count_outer(begins, stops, reference, list, bottoms);
}

// Takes out what begins and stops at one place.
fn settle(begins: &mut [u64], stops: &mut [u64])
    requires same { length stops.old ≡ length begins.old }
    ensures settled { IsSettled begins.old stops.old begins.new stops.new (length begins.new) }
    ensures begins_length { length begins.new ≡ length begins.old }
    ensures stops_length { length stops.new ≡ length stops.old }
{
    for i in 0..begins.len() {
        let both = begins[i].min(stops[i]);
        begins[i] -= both;
        stops[i] -= both;
    }
}

fn fill_slices(
    begins: &mut [u64],
    stops: &mut [u64],
    extremes: &mut [u64],
    reference: usize,
    list: &[u16],
)
    requires own { points list.now ≡ list.now }
    requires below { All (λ level. level + 1 < length begins.old) list.now }
    requires same { length stops.old ≡ length begins.old }
    requires places { length begins.old ≡ length extremes.old + 1 }
    requires reference { reference < length begins.old }
    requires few { length list.now ≤ MAX_POINTS }
    requires begins { (k : ℕ) → slice_index begins.old k ≡ 0 }
    requires stops { (k : ℕ) → slice_index stops.old k ≡ 0 }
    ensures counts { (l : ℕ) → sum (take (l + 1) begins.new) ≡
        sum (take (l + 1) stops.new) + crossings reference l list.now }
    ensures enough { (i : ℕ) → sum (take (i + 1) stops.new) ≤ sum (take i begins.new) }
    ensures extremes { (k : ℕ) → k < length extremes.new →
        slice_index extremes.new k ≡ extremes_at reference k list.now }
    ensures begins_length { length begins.new ≡ length begins.old }
    ensures stops_length { length stops.new ≡ length stops.old }
    ensures extremes_length { length extremes.new ≡ length extremes.old }
{
    count_steps(begins, stops, extremes, reference, list);
    settle(begins, stops);
}

/// Counts the crossings of a list of points in empty tables, and puts its extremes in place of
/// what a third one has.
pub fn fill(
    begins: &mut Vec<u64>,
    stops: &mut Vec<u64>,
    extremes: &mut Vec<u64>,
    reference: usize,
    list: &[u16],
)
    requires own { points list.now ≡ list.now }
    requires below { All (λ level. level + 1 < length begins.old.items) list.now }
    requires same { length stops.old.items ≡ length begins.old.items }
    requires places { length begins.old.items ≡ length extremes.old.items + 1 }
    requires reference { reference < length begins.old.items }
    requires few { length list.now ≤ MAX_POINTS }
    requires begins { (k : ℕ) → slice_index begins.old.items k ≡ 0 }
    requires stops { (k : ℕ) → slice_index stops.old.items k ≡ 0 }
    ensures counts { (l : ℕ) → sum (take (l + 1) begins.new.items) ≡
        sum (take (l + 1) stops.new.items) + crossings reference l list.now }
    ensures enough { (i : ℕ) → sum (take (i + 1) stops.new.items) ≤ sum (take i begins.new.items) }
    ensures extremes { (k : ℕ) → k < length extremes.new.items →
        slice_index extremes.new.items k ≡ extremes_at reference k list.now }
    ensures begins_length { length begins.new.items ≡ length begins.old.items }
    ensures stops_length { length stops.new.items ≡ length stops.old.items }
    ensures extremes_length { length extremes.new.items ≡ length extremes.old.items }
{
    fill_slices(begins, stops, extremes, reference, list);
}

/// Whether a list of points has one.
pub fn has_some(list: &[u16]) -> bool
    ensures { result ≡ has_level list.now }
{
    !list.is_empty()
}

/// The first point of a list, or 0 where there is none.
pub fn first_level(list: &[u16]) -> u16
    ensures { result ≡ start_level list.now }
{
    if list.is_empty() { 0 } else { list[0] }
}

/// The last point of a list, or 0 where there is none.
pub fn last_level(list: &[u16]) -> u16
    ensures { result ≡ last_point list.now }
{
    let count = list.len();
    if count == 0 { 0 } else { list[count - 1] }
}
