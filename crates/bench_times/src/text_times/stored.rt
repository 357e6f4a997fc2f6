ghost use Rattle.std.specs.Prelude.{◌≡◌, ◌≤◌, IfOk, length};
ghost use Rattle.calibration.specs.declared.limits.TheConstants.{MAX_GAUGES};

use crate::text_times::made::gain;
use calibration::{Grid, Items, Setup};
use outside::station::{MomentStation, Torn};
use recording::Head;
use segment::Segment;
use segment_store::{Store, init};
use std::alloc::{AllocError, Global};
use store_bytes::store_head::StoreHead;

/// One gauge over a grid.
pub fn setup_of(alloc: Global, grid: &Grid) -> Result<Setup, AllocError>
    ensures gauges { IfOk result (λ setup. length setup.gains ≡ 1) }
    ensures grid { IfOk result (λ setup. setup.grid ≡ grid.now) }
{
    Ok(Setup {
        grid: *grid,
        gains: Items::from_vec(vec![in alloc; gain(); 1]?),
    })
}

fn head_of(alloc: Global, grid: &Grid) -> Result<StoreHead, AllocError>
    ensures gains { IfOk result (λ head. length head.setup.gains ≡ 1) }
    ensures heads { IfOk result (λ head. length head.heads ≡ 1) }
{
    let head = Head {
        id: [0x11; 16],
        period_us: 10_000,
    };
    Ok(StoreHead {
        setup: setup_of(alloc, grid)?,
        heads: Items::from_vec(vec![in alloc; head; 1]?),
    })
}

// Puts a segment into the store on a station. One that does not fit is left out.
fn put(alloc: Global, station: &mut MomentStation, setup: &Setup, segment: &Segment)
    requires few { length setup.now.gains ≤ MAX_GAUGES }
{
    let name = segment.name();
    if segment.grid() != setup.grid
        || usize::from(name.gauge) >= setup.gains.as_slice().len()
        || name.from >= name.to
    {
        return;
    }
    let Ok(mut store) = Store::resume(alloc, station, setup) else {
        return;
    };
    let _answer = store.put(station, segment);
}

/// A station in memory with a store of one gauge that holds a segment.
pub fn stored(alloc: Global, segment: &Segment) -> Result<MomentStation, AllocError> {
    let mut station = MomentStation::new(alloc, Vec::new(alloc), Vec::new(alloc));
    let head = head_of(alloc, &segment.grid())?;
    if init(alloc, &mut station, &head).is_ok() {
        put(alloc, &mut station, &head.setup, segment);
    }
    let image = image_of(alloc, &station)?;
    Ok(MomentStation::new(alloc, image, Vec::new(alloc)))
}

/// The bytes on a station.
pub fn image_of(alloc: Global, station: &MomentStation) -> Result<Vec<u8>, AllocError> {
    station.crash(alloc, station.calls(), Torn::New)
}
