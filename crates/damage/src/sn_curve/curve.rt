ghost use Rattle.std.specs.Prelude.{◌≡◌, ◌*◌, ◌-◌, ◌^◌, ◌<◌, ◌≤◌};
ghost use Rattle.damage.specs.sn_curve.Curve.{IsShare, IsNormalShare, IsShearShare, denominator_by, denominator_of};
ghost use Rattle.damage.specs.declared.sn_curve.curve.TheConstants.{FORTIETHS};

use crate::sn_curve::{Detail, Kind};
use calibration::Grid;

/// The constant amplitude fatigue limit for normal stress over the category, in thousandths.
const KNEE: u128 = 737;

/// Its fifth power.
const KNEE_FIFTH: u128 = 217_438_998_607_457;

/// The cut-off limit for normal stress over the constant amplitude fatigue limit, in thousandths.
const CUT_OFF: u128 = 549;

/// The cut-off limit over the category for shear stress, in thousandths.
const SHEAR_CUT_OFF: u128 = 457;

/// The endurance at the category, in cycles. It is 5 * 10^6 at the knee.
const CYCLES: u128 = 2_000_000;

/// What a N/mm² has, so that each range and each category is a whole number.
const FORTIETHS: u128 = 40;

/// What the denominator for normal stress is times the fifth power of the knee, so that both slopes
/// give whole numerators.
const SCALE: u128 = 2500;

/// `SCALE` times 1000^5 over twice 5 * 10^6, as the second slope asks for.
const SECOND_SLOPE: u128 = 250_000_000_000;

/// The damage of one half cycle of range `k`, as numerator and denominator. All ranges of a detail
/// have the one denominator.
pub fn share(detail: &Detail, grid: &Grid, k: u16) -> (u128, u128)
    requires low { 1 ≤ k }
    requires high { k < grid.now.classes }
    ensures share { IsShare detail.now grid.now k result.0 result.1 }
    ensures denominator { result.1 ≡ denominator_of detail.now }
    ensures below_one { result.0 < result.1 }
    ensures fits { result.1 ≤ 10 ^ 37 }
{
    // The range times the partial factor, in fortieths.
    let range = grid.w2() as u128 * (detail.gamma() / 5) as u128 * k as u128;
    let category = detail.category() as u128;
    match detail.kind() {
        Kind::Normal => (
            normal_numerator(range, category),
            normal_denominator(category),
        ),
        Kind::Shear => (
            shear_numerator(range, category),
            shear_denominator(category),
        ),
    }
}

fn normal_denominator(category: u128) -> u128
    requires { category ≤ 160 }
    ensures value { result ≡ denominator_by Kind.Normal (FORTIETHS * category) }
    ensures fits { result ≤ 10 ^ 37 }
{
    SCALE * (KNEE * (FORTIETHS * category)).pow(5)
}

fn normal_numerator(range: u128, category: u128) -> u128
    requires range { range ≤ 54000 }
    requires category_from { 36 ≤ category }
    requires category_to { category ≤ 160 }
    ensures share { IsNormalShare range (FORTIETHS * category) result
        (denominator_by Kind.Normal (FORTIETHS * category)) }
    ensures below_one { result < denominator_by Kind.Normal (FORTIETHS * category) }
{
    let strength = FORTIETHS * category;
    if 1000 * range >= KNEE * strength {
        return range.pow(3) * KNEE_FIFTH * category.pow(2);
    }
    if 1000 * 1000 * range >= CUT_OFF * KNEE * strength {
        return range.pow(5) * SECOND_SLOPE;
    }
    0
}

fn shear_denominator(category: u128) -> u128
    requires { category ≤ 160 }
    ensures value { result ≡ denominator_by Kind.Shear (FORTIETHS * category) }
    ensures fits { result ≤ 10 ^ 37 }
{
    2 * CYCLES * (FORTIETHS * category).pow(5)
}

fn shear_numerator(range: u128, category: u128) -> u128
    requires range { range ≤ 54000 }
    requires category_from { 80 ≤ category }
    requires category_to { category ≤ 160 }
    ensures share { IsShearShare range (FORTIETHS * category) result
        (denominator_by Kind.Shear (FORTIETHS * category)) }
    ensures below_one { result < denominator_by Kind.Shear (FORTIETHS * category) }
{
    if 1000 * range >= SHEAR_CUT_OFF * (FORTIETHS * category) {
        return range.pow(5);
    }
    0
}
