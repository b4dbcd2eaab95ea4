// The ends of the links that a path may take.

ghost use Rattle.path_search.specs.Ends.{InRange};

use units::LINKS;

// The ends of the links 0 to count - 1, each a node from 0 to 31.
#[repr(C)]
#[derive(Clone, Copy)]
pub struct LinkEnds {
    pub count: usize,
    pub from: [u32; LINKS],
    pub to: [u32; LINKS],
    pub ghost in_range: { InRange count from to },
}
