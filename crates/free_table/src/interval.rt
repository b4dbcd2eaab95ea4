// Minutes in a row.

ghost use Rattle.std.specs.Prelude.{◌<◌};

use units::Minute;

// The minutes from start to end - 1: one at least.
#[derive(Clone, Copy)]
pub struct Interval {
    pub start: Minute,
    pub end: Minute,
    pub ghost lasts: { start.0 < end.0 },
}
