// What is asked of any start.

ghost use Rattle.std.specs.Prelude.{◌≤◌};

use path_search::LinkEnds;
use units::{Bandwidth, Duration};

// The links, where from and to, how much, and for how many minutes: one at least.
#[repr(C)]
#[derive(Clone, Copy)]
pub struct Search {
    pub ends: LinkEnds,
    pub source: u32,
    pub destination: u32,
    pub bandwidth: Bandwidth,
    pub span: Duration,
    pub ghost lasts: { 1 ≤ span.0 },
}
