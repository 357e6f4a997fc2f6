ghost use Rattle.std.specs.Prelude.{◌≡◌, ℕ, List, length};
ghost use Rattle.count_command.specs.held_samples.Fronts.{IsHeldTo};
ghost use Rattle.count_command.specs.held_samples.Hook.{CanFollow};

use crate::held_samples::line::HeldLine;
use segment::Segment;

/// What is done after each put that was stored, with what is then held of its gauge.
pub trait PutHook {
    ghost use Rattle.std.specs.Prelude.{List, ℕ};
    ghost use Rattle.calibration.specs.Grid.{GridValue};

    // It goes with segments over this grid, of which so many samples are held.
    ghost follows: { Self → GridValue → List ℕ → Type 0 };

    fn stored(&mut self, held: &Segment)
        requires { CanFollow (follows self.old) held.now }
        ensures { (ends now : List ℕ) → follows self.old held.now.grid ends →
            IsHeldTo ends held.now.gauge held.now.to now → length now ≡ length ends →
            follows self.new held.now.grid now };

    // What is done when no put will follow.
    fn end(&self);
}

/// Nothing is done.
#[derive(Drop)]
pub struct NoHook;

impl PutHook for NoHook {
    ghost follows = { λ h grid ends. Unit {0} };

    fn stored(&mut self, _held: &Segment) {}

    fn end(&self) {}
}

/// What is done behind a put: the hook, and then the line that acknowledges.
#[derive(Drop)]
pub struct Behind<H> {
    pub line: HeldLine,
    pub hook: H,
}
