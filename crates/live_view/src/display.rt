ghost use Rattle.std.specs.Prelude.{◌≡◌};
ghost use Rattle.live_view.specs.Rule.{shown, with_addition};

use crate::history::Front;
use crate::show::Show;
use crate::view::View;
use left_right::Absorb;
use std::alloc::AllocError;

/// What is shown: a view, and the front of the history that led to it from the first one. The first
/// one is there for the rule alone; a snapshot of it would do, but a struct with a snapshot is not
/// known to cross threads.
#[derive(Drop)]
pub struct Display {
    pub first: View,
    pub view: View,
    pub front: Front,
}

/// A show, and the history that ends with it.
#[derive(Drop)]
pub struct Addition {
    pub show: Show,
    pub front: Front,
}

impl Display {
    // Takes an addition in, if the view has room for it.
    fn add(&mut self, addition: &Addition)
        ensures { shown self.new ≡ with_addition (shown self.old) addition.now }
    {
        if !self.view.has_room(&addition.show) {
            return;
        }
        self.view.put(&addition.show);
        self.front = addition.front.again();
    }
}

// No addition changes nothing: the writer's queue takes its room by such ones.
impl Absorb<Option<Addition>> for Display {
    ghost use Rattle.live_view.specs.Rule.{added, shown};

    type State = (View, Front, View);

    ghost state = { shown };

    ghost applied = { added };

    ghost never_fails = { Unit {0} };

    fn absorb_first(
        &mut self,
        operation: &Option<Addition>,
        _other: &Display,
    ) -> Result<(), AllocError> {
        if let Some(addition) = operation {
            self.add(addition);
        }
        Ok(())
    }
}
