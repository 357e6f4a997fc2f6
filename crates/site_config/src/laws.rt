//! What the limits of a configuration, and what it has by default, come to in numbers.

ghost use Rattle.std.specs.Prelude.{◌≡◌, ◌<◌, ◌≤◌, ℕ, List, length, None, Ok, Err};
ghost use Rattle.site_config.specs.Configuration.{config_of_bytes, configuration_in, count_if};
ghost use Rattle.site_config.specs.declared.fault.ConfigFault.TheVariants.{TooLong};

/// A configuration has 65,536 bytes at most. Where it has no part `count` there are 1,024 samples
/// in a block, and four workers.
pub fn configuration()
    ensures long { (bytes : List ℕ) → 65536 < length bytes →
        config_of_bytes bytes ≡ Err TooLong }
    ensures read { (bytes : List ℕ) → length bytes ≤ 65536 →
        config_of_bytes bytes ≡ configuration_in bytes }
    ensures defaults { count_if None ≡ Ok (1024, 4) }
{}
