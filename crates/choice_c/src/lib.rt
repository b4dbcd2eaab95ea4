// The choice of a start for C: `choose` of `choice` on lent tables, its answer as a record.
#![tactic(auto)]

ghost use Rattle.std.specs.Prelude.{◌≡◌, ◌≤◌};
ghost use Rattle.units.specs.Limits.{last_shown};
ghost use Rattle.units.specs.Spans.{release};
ghost use Rattle.free_table.specs.Looking.{TablesSized};
ghost use Rattle.choice.specs.EventTables.{AreEvents};
ghost use Rattle.choice.specs.Answer.{wanted, choice_for, break_off_for, Askable, chosen, values};

use choice::{Asked, ChoiceRecord, Search};
use free_table::FreeTable;
use path_search::Net;
use units::Minute;

// The earliest start of low to latest at which there is a path, with that path; refusal 8 where there is none, with the minute at
// which every path from low on breaks off. Of a window that ends before it begins it is refusal 8 too, and the minute is the end of
// low's span where a path lasts throughout it.
#[unsafe(no_mangle)]
pub extern "C" fn choose_start<'a>(
    search: Search,
    events: &'a [u32],
    free: &'a [u32],
    low: Minute,
    latest: Minute,
) -> ChoiceRecord
    requires sized { TablesSized events.now free.now }
    requires are_events { AreEvents events.now }
    requires askable { Askable events.now search.span.0 low.0 latest.0 }
    requires low_in_time { release low.0 search.span.0 ≤ last_shown }
    ensures { result ≡ values (chosen (break_off_for (wanted search) events.now free.now low.0) (choice_for (wanted search) events.now free.now low.0 latest.0)) }
{
    let table = FreeTable {
        events,
        figures: free,
    };
    let net = Net::new(search.ends);
    let asked = Asked {
        search: &search,
        net: &net,
        table,
    };
    ChoiceRecord::from(asked.choose(low, latest))
}
