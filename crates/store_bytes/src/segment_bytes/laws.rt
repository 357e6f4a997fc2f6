ghost use Rattle.store_bytes.specs.segment_bytes.Decoding.{NoPrefix};

/// In one layout no body is a proper front of another.
pub fn no_prefix()
    ensures { NoPrefix }
{}
