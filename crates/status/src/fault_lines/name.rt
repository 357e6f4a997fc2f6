ghost use Rattle.std.specs.Prelude.{◌≡◌};
ghost use Rattle.site_config.specs.Valid.{name_of};
ghost use Rattle.status.specs.fault_lines.FaultLine.{name_for};

use crate::Status;
use site_config::Config;

/// The name of the gauge of a status. Other statuses have none.
pub fn name_in(config: &Config, status: Status) -> &str
    ensures { result.now ≡ name_for config.now status }
{
    match status {
        Status::Recording { gauge, .. }
        | Status::Torn { gauge, .. }
        | Status::TooLong { gauge }
        | Status::Differs { gauge, .. } => name_at(config, gauge),
        _ => "",
    }
}

fn name_at(config: &Config, gauge: u16) -> &str
    ensures { result.now ≡ name_of config.now gauge }
{
    match config.gauges.as_slice().get(gauge as usize) {
        Some(gauge) => gauge.name.as_str(),
        None => "",
    }
}
