ghost use Rattle.damage.specs.miner.Damage.{HasOneDamage};

/// The damage of half cycles is one number: no two fractions are the damage of the same half
/// cycles.
pub fn one_damage()
    ensures { HasOneDamage }
{}
