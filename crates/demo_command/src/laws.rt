ghost use Rattle.demo_command.specs.Summary.{HasOneSummary};

/// What is printed is one text: no two texts are the summary of the same seed and number of
/// samples.
pub fn one_summary()
    ensures { HasOneSummary }
{}
