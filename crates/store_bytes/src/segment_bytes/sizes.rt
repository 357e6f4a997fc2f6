ghost use Rattle.std.specs.Prelude.{◌≡◌};
ghost use Rattle.store_bytes.specs.segment_bytes.Sizes.{max_body};

use crate::segment_bytes::layout::Layout;

/// The length of the longest body over so many classes.
pub fn max_body(layout: Layout, classes: u16) -> usize
    ensures { result ≡ max_body layout classes }
{
    let k = usize::from(classes);
    match layout {
        Layout::One => 6 * (k * k) + 28 * k + 50,
        Layout::Two => 5 * (k * k) + 33 * k + 44,
    }
}
