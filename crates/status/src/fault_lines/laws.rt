ghost use Rattle.status.specs.fault_lines.FaultLine.{NoneAcknowledges};

/// No line of a status begins as a line does that acknowledges samples, whatever names it carries.
pub fn none_acknowledges()
    ensures { NoneAcknowledges }
{}
