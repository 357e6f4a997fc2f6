ghost use Rattle.std.specs.Prelude.{◌≡◌, ◌≤ℤ◌, pos, option_map, IfSome};
ghost use Rattle.csv_recording.specs.Cells as spec;

use calibration::MISSING;

// How many digits a reading has at most.
const MAX_DIGITS: usize = 10;

// The greatest reading. The least one has the same digits, behind a `-`.
const MAX_MAGNITUDE: u64 = 2_147_483_647;

// The sample that a cell means, or `None` where the cell is no sample.
pub(crate) fn cell_sample(cell: &[u8]) -> Option<i32>
    ensures { result ≡ spec.cell_sample cell.now }
{
    let text = without_blanks_behind(without_blanks_before(cell));
    if means_missing(text) {
        Some(MISSING)
    } else {
        reading_in(text)
    }
}

fn without_blanks_before(text: &[u8]) -> &[u8]
    ensures { result.now ≡ spec.without_blanks_before text.now }
{
    let mut rest = text;
    'blanks: while let [first, behind @ ..] = rest {
        if !is_blank(*first) {
            break;
        }
        rest = behind;
    }
    rest
}

fn without_blanks_behind(text: &[u8]) -> &[u8]
    ensures { result.now ≡ spec.without_blanks_behind text.now }
{
    let mut rest = text;
    'blanks: while let [before @ .., last] = rest {
        if !is_blank(*last) {
            break;
        }
        rest = before;
    }
    rest
}

fn is_blank(byte: u8) -> bool
    ensures { result ≡ spec.is_blank byte }
{
    byte == b' ' || byte == b'\t'
}

fn means_missing(text: &[u8]) -> bool
    ensures { result ≡ spec.means_missing text.now }
{
    text.is_empty() || text == b"NaN".as_slice()
}

// A reading, with its sign or without one.
fn reading_in(text: &[u8]) -> Option<i32>
    ensures { result ≡ spec.reading_in text.now }
{
    let [first, digits @ ..] = text else {
        return None;
    };
    if *first == b'-' {
        return Some(-unsigned_reading(digits)?);
    }
    if *first == b'+' {
        return unsigned_reading(digits);
    }
    unsigned_reading(text)
}

fn unsigned_reading(digits: &[u8]) -> Option<i32>
    ensures value { result ≡ option_map pos (spec.magnitude digits.now) }
    ensures sign { IfSome result (λ n. pos 0 ≤ℤ n) }
{
    if digits.is_empty() || digits.len() > MAX_DIGITS {
        return None;
    }
    let mut value: u64 = 0;
    for digit in digits {
        if !digit.is_ascii_digit() {
            return None;
        }
        value = value * 10 + u64::from(*digit - b'0');
        if value > MAX_MAGNITUDE {
            return None;
        }
    }
    Some(value as i32)
}
