ghost use Rattle.std.specs.Prelude.{◌≡◌};
ghost use Rattle.calibration.specs.Level.{reading_of};

use calibration::{Classifier, Gain, Grid, Reading};
use std::marker::Model;

// A gain, and what it makes of raw values over a grid.
#[derive(Drop)]
struct GainClassifier {
    gain: Gain,
    classifier: Classifier,
}

/// The classes of a segment, with the classifier of the gain that was asked for last. The samples
/// of a gauge have one gain, so that only the first of them divides.
#[derive(Drop)]
pub struct Classes {
    grid: Grid,
    last: Option<GainClassifier>,
}

impl Model for Classes {
    ghost use Rattle.std.specs.Prelude.{◌≡◌, Some};
    ghost use Rattle.calibration.specs.Grid.{GridValue};
    ghost use Rattle.segment.specs.declared.classes.GainClassifier.{GainClassifier};

    ghost Value = { GridValue };

    ghost view = { λ c. c.grid };

    ghost invariant = { λ c. (l : GainClassifier) → c.last ≡ Some l →
        l.classifier ≡ record { gain = l.gain; grid = c.grid } };
}

impl Classes {
    /// The classes of a grid. No gain was asked for yet.
    pub fn new(grid: &Grid) -> Classes
        ensures { result ≡ grid.now }
    {
        Classes {
            grid: *grid,
            last: None,
        }
    }

    /// The grid that the classes are of.
    pub fn grid(&self) -> Grid
        ensures { result ≡ self.now }
    {
        self.grid
    }

    /// What a raw value is. It divides only where the gain is not that of the call before.
    pub fn reading(&mut self, raw: i32, gain: &Gain) -> Reading
        ensures value { result ≡ reading_of gain.now self.old raw }
        ensures unchanged { self.new ≡ self.old }
    {
        if let Some(last) = &self.last
            && last.gain == *gain
        {
            return last.classifier.level(raw);
        }
        let classifier = Classifier::new(gain, &self.grid);
        let reading = classifier.level(raw);
        self.last = Some(GainClassifier {
            gain: *gain,
            classifier,
        });
        reading
    }
}
