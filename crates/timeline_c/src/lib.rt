// The event table for C: the functions of `timeline` under their own names, each with the clauses that it has there, and the count
// of events, for which C and the tests alone ask.
#![tactic(auto)]

ghost use Rattle.std.specs.Prelude.{◌≡◌, ◌<◌, length};
ghost use Rattle.units.specs.Limits.{most_links};
ghost use Rattle.timeline.specs.Events.{row_at};
ghost use Rattle.timeline.specs.EventTable.{count_events, only_clock};
ghost use Rattle.timeline.specs.Insertion.{with_event, with_row, with_span, with_span_rows, Room};

use units::Minute;

// The row that holds in a minute.
#[unsafe(no_mangle)]
pub extern "C" fn row_at(events: &[u32], minute: Minute) -> usize
    ensures { result ≡ row_at events.now minute.0 }
{
    timeline::row_at(events, minute)
}

// How many events the table holds: the clock, and those up to the first zero behind it.
#[unsafe(no_mangle)]
pub extern "C" fn count_events(events: &[u32]) -> usize
    ensures { result ≡ count_events events.now }
{
    let Some((_, later)) = events.split_first() else {
        return 0;
    };
    1 + later.iter().take_while(|&&event| event != 0).count()
}

// The event table of a desk without bookings.
#[unsafe(no_mangle)]
pub extern "C" fn reset_events(events: &mut [u32], clock: Minute)
    requires { 0 < length events.old }
    ensures { events.new ≡ only_clock (length events.old) clock.0 }
{
    timeline::reset_events(events, clock)
}

// Puts an event in.
#[unsafe(no_mangle)]
pub extern "C" fn insert_event(events: &mut [u32], rows: &mut [u32], minute: Minute)
    requires { Room events.old rows.old 1 }
    ensures { (events.new ≡ with_event minute.0 events.old)
        × (rows.new ≡ with_row most_links events.old minute.0 rows.old) }
{
    timeline::insert_event(events, rows, minute)
}

// Puts the start and the end of a span in.
#[unsafe(no_mangle)]
pub extern "C" fn insert_span(events: &mut [u32], rows: &mut [u32], start: Minute, end: Minute)
    requires { Room events.old rows.old 2 }
    ensures { (events.new ≡ with_span start.0 end.0 events.old)
        × (rows.new ≡ with_span_rows most_links events.old start.0 end.0 rows.old) }
{
    timeline::insert_span(events, rows, start, end)
}
