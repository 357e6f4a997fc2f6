ghost use Rattle.std.specs.Prelude.{◌≡◌, ◌≢◌, ◌≤◌, ◌<◌, length};
ghost use Rattle.outside.specs.Fault.{CountRose};
ghost use Rattle.segment_store.specs.Held.{ends_of};
ghost use Rattle.site_config.specs.Valid.{IsConfig};
ghost use Rattle.site_config.specs.recorded.Asked.{file_names};
ghost use Rattle.status.specs.declared.status.Status.TheVariants.{Done, ReadFault, WriteFault};
ghost use Rattle.audit_command.specs.Audited.{IsItem};
ghost use Rattle.audit_command.specs.Asked.{AuditAsks};
ghost use Rattle.audit_command.specs.Answers.{HeldAnswers, IsAuditing};
ghost use Rattle.audit_command.specs.Printing.{Prints};

use crate::compared::first_other;
use crate::recounting::recount_all;
use crate::same_lines::{line_room, print_same};
use outside::{Sink, Site};
use segment_store::Store;
use site_config::Config;
use status::Status;
use std::alloc::Global;

/// Audits a store that was resumed, and prints the lines where nothing differs. All memory but
/// that of counting is taken first.
pub(crate) fn audit_held<T: Site, O: Sink>(
    alloc: Global,
    config: &Config,
    store: &Store,
    site: &mut T,
    out: &mut O,
) -> Status
    requires config { IsConfig config.now }
    requires setup { store.now.head.setup ≡ config.now.setup }
    requires held { length store.now.held ≡ length config.now.gauges }
    requires heads { length store.now.head.heads ≡ length config.now.gauges }
    requires home { T.out site.old ≡ 0 }
    ensures prints { O.tells → Prints result config.now (O.written out.old) (O.written out.new) }
    ensures answer { T.tells → HeldAnswers config.now store.now.head.heads (IsItem store.now.held)
        (ends_of store.now.held) (T.files site.old) result }
    ensures kind { IsAuditing result }
    ensures read { result ≡ ReadFault → CountRose (T.faults site.old) (T.faults site.new) }
    ensures steady { result ≢ ReadFault → T.faults site.new ≡ T.faults site.old }
    ensures write { result ≡ WriteFault → CountRose (O.faults out.old) (O.faults out.new) }
    ensures asked { AuditAsks result (T.names_asked site.old) (T.names_asked site.new)
        (file_names config.now) }
    ensures back { T.out site.new ≡ 0 }
    ensures files { T.tells → T.files site.new ≡ T.files site.old }
    ensures later { T.faults site.old ≤ T.faults site.new }
{
    let Ok(mut line) = line_room(alloc) else {
        return Status::OutOfMemory;
    };
    let Ok(mut recounts) = Vec::with_capacity(alloc, config.gauges.as_slice().len()) else {
        return Status::OutOfMemory;
    };
    if let Err(status) = recount_all(alloc, config, store, site, &mut recounts) {
        return status;
    }
    if let Some(status) = first_other(config, store, &recounts) {
        return status;
    }
    match print_same(config, &mut line, out) {
        Ok(()) => Status::Done,
        Err(_) => Status::WriteFault,
    }
}
