ghost use Rattle.std.specs.Prelude.{◌≡◌, ◌≢◌, ◌≤◌, ◌+◌, IfOk, IfErr, Err, length};
ghost use Rattle.outside.specs.Fault.{CountRose};
ghost use Rattle.site_config.specs.Configuration.{config_of_bytes};
ghost use Rattle.site_config.specs.Valid.{IsConfig};
ghost use Rattle.site_config.specs.declared.limits.TheConstants.{MAX_BYTES};
ghost use Rattle.status.specs.config_reading.Reading.{MeansAs, IsRefusal};
ghost use Rattle.status.specs.declared.status.Status.TheVariants.{ReadFault};

use crate::Status;
use outside::Source;
use recording::{Stop, take_all};
use site_config::{Config, ConfigFault, MAX_BYTES, read};
use std::alloc::Global;

/// Reads the configuration that a source gives. It takes 65,537 bytes at most.
pub fn read_config<C: Source>(alloc: Global, config: &mut C) -> Result<Config, Status>
    ensures meaning { C.tells → MeansAs (config_of_bytes (C.left config.old)) result }
    ensures valid { IfOk result IsConfig }
    // What it may refuse with.
    ensures refusal { IfErr result IsRefusal }
    ensures cause { result ≡ Err ReadFault → CountRose (C.faults config.old) (C.faults config.new) }
    ensures later { C.faults config.old ≤ C.faults config.new }
{
    let Ok(mut bytes) = vec![in alloc; 0; MAX_BYTES + 1] else {
        return Err(Status::OutOfMemory);
    };
    read_front(alloc, config, bytes.as_mut_slice())
}

// The same by a buffer with room for all bytes that are looked at.
fn read_front<C: Source>(alloc: Global, config: &mut C, bytes: &mut [u8]) -> Result<Config, Status>
    requires room { length bytes.old ≡ MAX_BYTES + 1 }
    ensures meaning { C.tells → MeansAs (config_of_bytes (C.left config.old)) result }
    ensures valid { IfOk result IsConfig }
    ensures refusal { IfErr result IsRefusal }
    ensures cause { result ≡ Err ReadFault → CountRose (C.faults config.old) (C.faults config.new) }
    ensures later { C.faults config.old ≤ C.faults config.new }
{
    let taken = take_all(config, bytes);
    match taken.stop {
        Stop::Full | Stop::Ended => meaning_of(alloc, &bytes[..taken.n]),
        Stop::Failed => Err(Status::ReadFault),
    }
}

// What these bytes mean.
fn meaning_of(alloc: Global, bytes: &[u8]) -> Result<Config, Status>
    ensures meaning { MeansAs (config_of_bytes bytes.now) result }
    ensures valid { IfOk result IsConfig }
    ensures refusal { IfErr result IsRefusal }
    ensures no_read { result ≢ Err ReadFault }
{
    match read(alloc, bytes) {
        Ok(config) => Ok(config),
        Err(ConfigFault::OutOfMemory) => Err(Status::OutOfMemory),
        Err(fault) => Err(Status::Config(fault)),
    }
}
