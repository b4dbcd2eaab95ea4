// The event table and the rows beside it, as their owner lends them: the row that holds in a minute; one event, or the two
// of a span, put in with a copy of the row before; an event taken out with its row, and all before a minute. The free table and the
// desk call this; it never looks at what a row holds. `timeline_c` exports functions of it to C.
#![tactic(auto)]

ghost use Rattle.std.specs.Prelude.{◌≡◌, [], ◌∷◌, ◌+◌, ◌≤◌, ◌<◌, length, take};
ghost use Rattle.timeline.specs.Removal.{drop_front, without_event, without_row, events_from, rows_from, RowsSized};
ghost use Rattle.units.specs.Limits.{most_links};
ghost use Rattle.units.specs.Lists.{put_piece};
ghost use Rattle.timeline.specs.Events.{row_at};
ghost use Rattle.timeline.specs.EventTable.{only_clock};
ghost use Rattle.timeline.specs.Insertion.{with_event, with_row, with_span, with_span_rows, Room};

mod used;

use units::{Minute, ROW};
pub use used::{UsedEvents, rising};

// The row that holds in a minute: that of the last event at or before it, or the first one where there is none.
pub fn row_at(events: &[u32], minute: Minute) -> usize
    ensures { result ≡ row_at events.now minute.0 }
{
    let Some((_, later)) = events.split_first() else {
        return 0;
    };
    later
        .iter()
        .take_while(|&&event| event != 0 && event <= minute.0)
        .count()
}

// The event table of a desk without bookings: the clock alone.
pub fn reset_events(events: &mut [u32], clock: Minute)
    requires { 0 < length events.old }
    ensures { events.new ≡ only_clock (length events.old) clock.0 }
{
    events.fill(0);
    events[0] = clock.0;
}

// Puts the first figures of the part in again behind themselves; what stands behind them moves up, and what has no room is dropped.
fn repeat<const WIDTH: usize>(part: &mut [u32])
    requires { WIDTH + WIDTH ≤ length part.old }
    ensures { part.new ≡ put_piece WIDTH (take WIDTH part.old) part.old }
{
    let kept = part.len() - WIDTH;
    part.copy_within(..kept, WIDTH);
}

// Puts an event in where it is later than the clock and missing, with a copy of the row before it.
#[tactic(auto, using(crate::proofs::Insertion::row_below, crate::proofs::Insertion::with_event_there, crate::proofs::Insertion::with_row_there))]
pub fn insert_event(events: &mut [u32], rows: &mut [u32], minute: Minute)
    requires { Room events.old rows.old 1 }
    ensures { (events.new ≡ with_event minute.0 events.old)
        × (rows.new ≡ with_row most_links events.old minute.0 rows.old) }
{
    let row = row_at(events, minute);
    if minute.0 <= events[row] {
        return;
    }
    repeat::<ROW>(&mut rows[row * ROW..]);
    repeat::<1>(&mut events[row..]);
    events[row + 1] = minute.0;
}

// Puts the start and the end of a span in, each where it is later than the clock and missing.
pub fn insert_span(events: &mut [u32], rows: &mut [u32], start: Minute, end: Minute)
    requires { Room events.old rows.old 2 }
    ensures { (events.new ≡ with_span start.0 end.0 events.old)
        × (rows.new ≡ with_span_rows most_links events.old start.0 end.0 rows.old) }
{
    insert_event(events, rows, end);
    insert_event(events, rows, start);
}

// Drops the first figures of the part: those behind them move down, with zeros behind.
fn drop_front(part: &mut [u32], count: usize)
    requires { count ≤ length part.old }
    ensures { part.new ≡ drop_front count part.old }
{
    if count == 0 {
        return;
    }
    let kept = part.len() - count;
    part.copy_within(count.., 0);
    part[kept..].fill(0);
}

// Takes the event that holds in a minute out with its row; the clock stays.
#[tactic(auto, using(crate::proofs::Rows::row_inside))]
pub fn remove_event(events: &mut [u32], rows: &mut [u32], minute: Minute)
    requires { RowsSized events.old rows.old }
    ensures { (events.new ≡ without_event minute.0 events.old)
        × (rows.new ≡ without_row most_links events.old minute.0 rows.old) }
{
    let row = row_at(events, minute);
    if row == 0 {
        return;
    }
    drop_front(&mut rows[row * ROW..], ROW);
    drop_front(&mut events[row..], 1);
}

// Moves the clock on to a minute: the row that holds then is the first, and those before it are dropped.
#[tactic(auto, using(crate::proofs::Rows::row_inside))]
pub fn drop_before(events: &mut [u32], rows: &mut [u32], minute: Minute)
    requires { RowsSized events.old rows.old }
    ensures { (events.new ≡ events_from minute.0 events.old)
        × (rows.new ≡ rows_from most_links events.old minute.0 rows.old) }
{
    let row = row_at(events, minute);
    drop_front(rows, row * ROW);
    drop_front(events, row);
    events[0] = minute.0;
}
