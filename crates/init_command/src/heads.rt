ghost use Rattle.std.specs.Prelude.{◌≡◌, ◌≢◌, ◌≤◌, ◌<◌, [], ◌∷◌, Err, IfOk, IfErr, MatchResult, length};
ghost use Rattle.outside.specs.Fault.{CountRose};
ghost use Rattle.outside.specs.Site.{Asks};
ghost use Rattle.site_config.specs.Valid.{IsConfig};
ghost use Rattle.site_config.specs.recorded.Asked.{file_names};
ghost use Rattle.status.specs.declared.status.Status.TheVariants.{ReadFault};
ghost use Rattle.init_command.specs.Asked.{InitAsks};
ghost use Rattle.init_command.specs.Heads.{HeadAnswer, HeadsAnswer, IsHeadStatus, IsHeadsStatus, head_status as head_status_of};

use calibration::Items;
use outside::Site;
use recording::{Head, HeadFault, read_head};
use site_config::Config;
use status::{Status, recording_fault_of};
use std::alloc::Global;

/// Reads the heads of all recordings, in order of gauge.
pub(crate) fn read_heads<T: Site>(
    alloc: Global,
    config: &Config,
    site: &mut T,
) -> Result<Items<Head>, Status>
    requires config { IsConfig config.now }
    requires home { T.out site.old ≡ 0 }
    ensures answer { T.tells → HeadsAnswer config.now (T.files site.old) result }
    ensures all { IfOk result (λ heads. length heads ≡ length config.now.gauges) }
    ensures kind { IfErr result IsHeadsStatus }
    ensures cause { result ≡ Err ReadFault → CountRose (T.faults site.old) (T.faults site.new) }
    ensures steady { result ≢ Err ReadFault → T.faults site.new ≡ T.faults site.old }
    ensures later { T.faults site.old ≤ T.faults site.new }
    // Where a head is refused no later file is asked for.
    ensures asked { MatchResult result (λ heads. Asks (T.names_asked site.old)
        (T.names_asked site.new) (file_names config.now))
        (λ status. InitAsks status (T.names_asked site.old) (T.names_asked site.new)
        (file_names config.now)) }
    ensures back { T.out site.new ≡ 0 }
    ensures files { T.tells → T.files site.new ≡ T.files site.old }
{
    let gauges = config.gauges.as_slice();
    let Ok(mut heads) = Vec::with_capacity(alloc, gauges.len()) else {
        return Err(Status::OutOfMemory);
    };
    for gauge in 0..gauges.len() {
        match read_head_of(gauge as u16, gauges[gauge].file.as_str(), site) {
            Ok(head) => heads.push_reserved(head),
            Err(status) => return Err(status),
        }
    }
    Ok(Items::from_vec(heads))
}

// The head of the recording of this gauge, which is in that file.
#[tactic(auto, using(crate::proofs::Reading::head_kind))]
fn read_head_of<T: Site>(gauge: u16, file: &str, site: &mut T) -> Result<Head, Status>
    requires home { T.out site.old ≡ 0 }
    ensures answer { T.tells → HeadAnswer (T.files site.old file.now) gauge result }
    ensures kind { IfErr result (IsHeadStatus gauge) }
    ensures cause { result ≡ Err ReadFault → CountRose (T.faults site.old) (T.faults site.new) }
    ensures steady { result ≢ Err ReadFault → T.faults site.new ≡ T.faults site.old }
    ensures later { T.faults site.old ≤ T.faults site.new }
    ensures asked { Asks (T.names_asked site.old) (T.names_asked site.new) (file.now ∷ []) }
    ensures back { T.out site.new ≡ 0 }
    ensures files { T.tells → T.files site.new ≡ T.files site.old }
{
    let Ok(mut src) = site.fetch(file) else {
        return Err(Status::ReadFault);
    };
    let head = read_head(&mut src);
    site.give_back(src);
    match head {
        Ok(head) => Ok(head),
        Err(fault) => Err(head_status(gauge, fault)),
    }
}

fn head_status(gauge: u16, fault: HeadFault) -> Status
    ensures { result ≡ head_status_of gauge fault }
{
    match recording_fault_of(fault) {
        Some(fault) => Status::Recording { gauge, fault },
        None => Status::ReadFault,
    }
}
