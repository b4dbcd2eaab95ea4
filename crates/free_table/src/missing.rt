// What a check of one link finds.

use units::Minute;

// The first minute of an interval at which the bandwidth is missing, or that none is.
#[derive(Clone, Copy)]
pub enum Missing {
    At(Minute),
    Nowhere,
}
