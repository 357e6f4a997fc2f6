ghost use Rattle.std.specs.Prelude.{◌≡◌, ◌≤◌, ◌<◌, ◌++◌, [], ◌∷◌, IfOk, length};
ghost use Rattle.outside.specs.Fault.{CountRose};
ghost use Rattle.outside.specs.station.Station.{Image, Only};
ghost use Rattle.store_bytes.specs.declared.segment_bytes.layout.Layout.TheVariants.{Two};
ghost use Rattle.store_bytes.specs.store_head.Head.{see_head, empty_store};
ghost use Rattle.segment_store.specs.Quiet.{StaysQuiet};
ghost use Rattle.status.specs.declared.status.Status.TheVariants.{Done, DiskFault};
ghost use Rattle.init_command.specs.Init.{init_line};
ghost use Rattle.init_command.specs.Making.{InStore, MakesBy, IsMaking, WhereUnmade, init_status as init_status_of};
ghost use Rattle.calibration.specs.declared.limits.TheConstants.{MAX_GAUGES};
ghost use Rattle.segment_store.specs.Moments.{EachMoment};

use outside::station::Station;
use segment_store::{InitFault, init};
use status::line_room::LineRoom;
use status::{Status, StoreFault};
use std::alloc::{AllocError, Global};
use store_bytes::store_head::StoreHead;

// No line is longer: the number has at most two digits.
const MAX_LINE_BYTES: usize = 16;

/// Makes the store, and tells it.
pub(crate) fn make_store<K: Station>(alloc: Global, head: &StoreHead, station: &mut K) -> Status
    requires few { length head.now.setup.gains ≤ MAX_GAUGES }
    requires heads { length head.now.heads ≡ length head.now.setup.gains }
    ensures made { K.tells → result ≡ Done →
        (K.seen station.new ≡ empty_store (see_head Two head.now))
        × Only (K.seen station.new) (K.leaves station.new) }
    ensures told { K.tells → result ≡ Done → K.told station.new ≡
        K.told station.old ++ init_line (length head.now.setup.gains) ∷ [] }
    ensures any_moment { K.tells → ((c : Image) → K.leaves station.old c → length c ≡ 0) →
        EachMoment ⟦<K as Station>⟧ station.old station.new (InStore (K.told station.old)
        (init_line (length head.now.setup.gains)) (empty_store (see_head Two head.now))) }
    // Over a station that is not empty nothing is done, and so where it is refused.
    ensures quiet { K.tells → 0 < length (K.seen station.old) →
        StaysQuiet ⟦<K as Station>⟧ station.old station.new }
    ensures unmade { K.tells → WhereUnmade result
        (StaysQuiet ⟦<K as Station>⟧ station.old station.new) }
    ensures answer { K.tells → MakesBy (length (K.seen station.old)) result }
    ensures kind { IsMaking result }
    ensures disk { result ≡ DiskFault → CountRose (K.faults station.old) (K.faults station.new) }
    ensures later { K.faults station.old ≤ K.faults station.new }
{
    let Ok(line) = line_of(alloc, head.setup.gains.as_slice().len()) else {
        return Status::OutOfMemory;
    };
    match init(alloc, station, head) {
        Ok(()) => {}
        Err(fault) => return init_status(fault),
    }
    match station.tell(line.bytes()) {
        Ok(()) => Status::Done,
        Err(_) => Status::DiskFault,
    }
}

fn line_of(alloc: Global, gauges: usize) -> Result<LineRoom, AllocError>
    requires few { gauges ≤ MAX_GAUGES }
    ensures { IfOk result (λ line. line.bytes ≡ init_line gauges) }
{
    let mut line = LineRoom::new(alloc, MAX_LINE_BYTES)?;
    line.push(b"init ");
    line.push_number(gauges as u64);
    line.push(b"\n");
    Ok(line)
}

fn init_status(fault: InitFault) -> Status
    ensures { result ≡ init_status_of fault }
{
    match fault {
        InitFault::NotEmpty { size } => Status::Store(StoreFault::NotEmpty { size }),
        InitFault::DiskFault => Status::DiskFault,
        InitFault::OutOfMemory => Status::OutOfMemory,
    }
}
