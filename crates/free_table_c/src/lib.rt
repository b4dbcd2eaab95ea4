// The free table for C: two functions of `free_table` and two methods of its `FreeTable`, each with the promise that it has there.
#![tactic(auto)]

ghost use Rattle.std.specs.Prelude.{◌≡◌, ◌*◌, ◌≤◌, ◌<◌, length, take};
ghost use Rattle.units.specs.Limits.{most_links};
ghost use Rattle.timeline.specs.Events.{row_at};
ghost use Rattle.free_table.specs.Figures.{kept, all_free, Capacities};
ghost use Rattle.free_table.specs.Taking.{less_span, Sized};
ghost use Rattle.units.specs.Search.{found_or};
ghost use Rattle.free_table.specs.Looking.{first_missing};

use free_table::{FreeTable, Interval, Missing};
use units::{Bandwidth, LinkNumber, Minute};

// The free table of a desk without bookings.
#[tactic(auto, using(free_table::proofs::Tables::all_free_part))]
#[unsafe(no_mangle)]
pub extern "C" fn reset_free(free: &mut [u32], capacities: &[u32], links: usize)
    requires { Capacities free.old capacities.now links }
    ensures { free.new ≡ all_free (length free.old) links capacities.now }
{
    free_table::reset_free(free, &capacities[..links])
}

// The bandwidth that a link has free in a minute.
#[unsafe(no_mangle)]
pub extern "C" fn free_figure(
    events: &[u32],
    free: &[u32],
    link: LinkNumber,
    minute: Minute,
) -> Bandwidth
    requires { Sized events.now free.now link.0 }
    ensures { result.0 ≡ kept events.now free.now link.0 minute.0 }
{
    let table = FreeTable {
        events,
        figures: free,
    };
    table.figure(link, minute)
}

// Takes bandwidth from one link in minutes start to end - 1.
#[unsafe(no_mangle)]
pub extern "C" fn take_bandwidth(
    events: &[u32],
    free: &mut [u32],
    start: Minute,
    end: Minute,
    link: LinkNumber,
    bandwidth: Bandwidth,
)
    requires { Sized events.now free.old link.0 × (start.0 ≤ end.0) }
    ensures { (free.new ≡ less_span events.now start.0 end.0 link.0 bandwidth.0 free.old)
        × (take (row_at events.now start.0 * most_links) free.new ≡ take (row_at events.now start.0 * most_links) free.old) }
{
    free_table::take_bandwidth(events, free, start, end, link, bandwidth)
}

// The first minute from start to end - 1 at which one link has less than the bandwidth free; `end` where there is none.
#[unsafe(no_mangle)]
pub extern "C" fn first_missing(
    events: &[u32],
    free: &[u32],
    start: Minute,
    end: Minute,
    link: LinkNumber,
    bandwidth: Bandwidth,
) -> Minute
    requires { Sized events.now free.now link.0 × (start.0 < end.0) }
    ensures { result.0 ≡ found_or end.0 (first_missing events.now start.0 end.0 link.0 bandwidth.0 free.now) }
{
    let table = FreeTable {
        events,
        figures: free,
    };
    match table.first_missing(Interval { start, end }, link, bandwidth) {
        Missing::At(minute) => minute,
        Missing::Nowhere => end,
    }
}
