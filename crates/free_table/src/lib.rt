// The free table: what each link has free from each event on, 64 figures a row. The choice of a start and the desk call
// this. It knows rows, links and minutes; it never sees a path or a booking. `free_table_c` exports four of its functions to C.
#![tactic(auto)]

ghost use Rattle.std.specs.Prelude.{◌≡◌, ◌*◌, ◌/◌, ◌≤◌, ◌<◌, length, take};
ghost use Rattle.units.specs.Limits.{most_links};
ghost use Rattle.timeline.specs.Events.{row_at};
ghost use Rattle.free_table.specs.Figures.{all_free};
ghost use Rattle.free_table.specs.Taking.{less_rows, less_span, Sized};

mod interval;
mod masks;
mod missing;
mod spans;
mod view;

pub use interval::Interval;
pub use masks::{Masks, no_masks, row_mask};
pub use missing::Missing;
pub use spans::{give_span, take_span};
use timeline::row_at;
use units::{Bandwidth, LinkNumber, Minute, ROW};
pub use view::FreeTable;

// The free table of a desk without bookings: the capacities of its links at the one event, the clock.
pub fn reset_free(free: &mut [u32], capacities: &[u32])
    requires { length capacities.now ≤ length free.old }
    ensures { free.new ≡ all_free (length free.old) (length capacities.now) capacities.now }
{
    free.fill(0);
    for (link, &capacity) in capacities.iter().enumerate() {
        free[link] = capacity;
    }
}

// Takes bandwidth from one link in every row of the part. The part starts at the row of the start, so nothing before it
// can change; a figure that is too small becomes zero.
#[tactic(auto, using(crate::proofs::Steps::less_rows_none, crate::proofs::Steps::less_rows_next))]
fn subtract(part: &mut [u32], link: LinkNumber, bandwidth: Bandwidth)
    requires { link.0 < most_links }
    ensures { part.new ≡ less_rows (length part.old / most_links) link.0 bandwidth.0 part.old }
{
    let column = link.0 as usize;
    for row in 0..part.len() / ROW {
        let at = row * ROW + column;
        part[at] = part[at].saturating_sub(bandwidth.0);
    }
}

// Takes bandwidth from one link in minutes start to end - 1, where start and end are events or not later than the clock.
#[tactic(auto, using(timeline::proofs::Rows::row_inside, timeline::proofs::Rows::row_later))]
pub fn take_bandwidth(
    events: &[u32],
    free: &mut [u32],
    start: Minute,
    end: Minute,
    link: LinkNumber,
    bandwidth: Bandwidth,
)
    requires { Sized events.now free.old link.0 × (start.0 ≤ end.0) }
    ensures { (free.new ≡ less_span events.now start.0 end.0 link.0 bandwidth.0 free.old)
        × (take (row_at events.now start.0 * most_links) free.new ≡ take (row_at events.now start.0 * most_links) free.old) }
{
    let first = row_at(events, start);
    let past = row_at(events, end);
    subtract(&mut free[first * ROW..past * ROW], link, bandwidth);
}
