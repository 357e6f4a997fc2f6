ghost use Rattle.std.specs.Prelude.{[], ⊤};

use crate::stores::{FIRST, NEXT, setup, stored};
use outside::Failed;
use outside::station::Station;
use segment_store::{Damage, ResumeFault, Store};
use std::alloc::Global;
use std::test::Fail;

// A store that another program writes while it is read: of its bytes the first size that is asked
// is an earlier one.
#[derive(Drop)]
struct GrowingStation {
    bytes: Vec<u8>,
    first_size: Option<u64>,
    faults: u64,
}

impl GrowingStation {
    fn new(bytes: Vec<u8>, first_size: u64) -> GrowingStation {
        GrowingStation {
            bytes,
            first_size: Some(first_size),
            faults: 0,
        }
    }
}

impl Station for GrowingStation {
    ghost tells = { ⊥ };

    ghost seen = { λ _. [] };

    ghost told = { λ _. [] };

    ghost leaves = { λ _ _. ⊤ };

    ghost clock = { λ _. 0 };

    ghost moments = { λ _ _ _ _. ⊤ };

    ghost faults = { λ s. s.faults };

    ghost seen_counts = { λ none. absurd none };

    ghost counts_now = { λ none. absurd none };

    ghost only_now = { λ none. absurd none };

    fn size(&mut self) -> Result<u64, Failed> {
        match self.first_size.take() {
            Some(size) => Ok(size),
            None => Ok(self.bytes.len() as u64),
        }
    }

    fn read_at(&mut self, at: u64, buf: &mut [u8]) -> Result<(), Failed> {
        let from = at as usize;
        if from > self.bytes.len() || buf.len() > self.bytes.len() - from {
            self.faults = self.faults.saturating_add(1);
            return Err(Failed);
        }
        buf.copy_from_slice(&self.bytes[from..from + buf.len()]);
        Ok(())
    }

    fn write_at(&mut self, _at: u64, _bytes: &[u8]) -> Result<(), Failed> {
        self.faults = self.faults.saturating_add(1);
        Err(Failed)
    }

    fn sync(&mut self) -> Result<(), Failed> {
        Ok(())
    }

    fn tell(&mut self, _line: &[u8]) -> Result<(), Failed> {
        Ok(())
    }
}

// How many bodies such a store has, and up to where gauge 0 is held, or why it is not resumed.
fn resumed(
    alloc: Global,
    bytes: Vec<u8>,
    first_size: u64,
) -> Result<Result<(u64, u64), ResumeFault>, Fail> {
    let setup = setup(alloc, 1)?;
    let mut station = GrowingStation::new(bytes, first_size);
    match Store::resume(alloc, &mut station, &setup) {
        Ok(store) => Ok(Ok((store.count(), store.held(0).name().to))),
        Err(fault) => Ok(Err(fault)),
    }
}

// Wherever the store ended when its size was asked, behind its head, the bodies that are there by
// now are held.
#[test]
fn a_store_grows_while_it_is_resumed(rt: HostRuntime) -> Result<(), Fail> {
    let whole = stored(&rt, rt.alloc(), 1, &[FIRST, NEXT])?;
    for first_size in 63..whole.len() as u64 {
        let found = resumed(rt.alloc(), whole.clone()?, first_size)?;
        assert_eq!(rt; found, Ok((2, 9)), "{first_size} bytes");
    }
    Ok(())
}

// A body that is cut off in the size of now is told with that size.
#[test]
fn a_store_that_grows_is_cut(rt: HostRuntime) -> Result<(), Fail> {
    let mut bytes = stored(&rt, rt.alloc(), 1, &[FIRST, NEXT])?;
    let size = bytes.len().saturating_sub(1);
    bytes.truncate(size);
    let found = resumed(rt.alloc(), bytes, 63)?;
    let damage = Damage::Cut { size: size as u64 };
    assert_eq!(rt; found, Err(ResumeFault::Damaged { index: 1, damage }));
    Ok(())
}
