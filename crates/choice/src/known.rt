// What the tries of one call leave for those after them.

ghost use Rattle.choice.specs.declared.asked.Asked.{Asked};
ghost use Rattle.choice.specs.Known.{KnownOf};

use free_table::{Masks, no_masks};
use path_search::LinkSet;

// Which links have the bandwidth in the rows that were looked at; the cut that the last search without a path left, and the links
// of the last path that was found.
#[derive(Clone, Copy)]
pub struct Known {
    pub masks: Masks,
    pub cut: Option<LinkSet>,
    pub held: Option<LinkSet>,
}

// What is known before the first try.
pub fn nothing_known() -> Known
    ensures { (asked : Asked) → KnownOf asked result }
{
    Known {
        masks: no_masks(),
        cut: None,
        held: None,
    }
}
