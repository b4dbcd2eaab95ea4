// Every start there is: the ranges of a window's possible start minutes, written into a lent list. The desk's listing calls
// it. It tries low, the events and the minutes at which a span's end meets an event, never minute by minute, and never sees
// a booking.
#![tactic(auto)]

ghost use Rattle.std.specs.Prelude.{◌≡◌, true, false, suc, ◌≤◌, length};
ghost use Rattle.units.specs.Limits.{most_ranges, list_size};
ghost use Rattle.choice.specs.Answer.{possible_of, choice_of, AskableOf};
ghost use Rattle.choice.specs.Known.{KnownOf};
ghost use Rattle.listing.specs.Ranges.{ranges_of, list_table, start_of, start_granted};
ghost use Rattle.listing.specs.Right.{RunEnd};

use choice::{Asked, Granted, Known, nothing_known};
use units::{Minute, end_minute};

// The start that was found, where one was.
fn start_granted(found: Option<Granted>) -> Option<Minute>
    ensures { result ≡ start_granted found }
{
    Some(found?.start)
}

// The first possible minute from one on that is not possible, or past the window; that minute is not tried again.
fn next_start(asked: &Asked, known: &mut Known, end: Minute, latest: Minute) -> Option<Minute>
    requires askable { AskableOf asked.now end.0 latest.0 }
    requires known { KnownOf asked.now known.old }
    requires end_impossible { (end.0 ≤ latest.0 → possible_of asked.now end.0 ≡ false) }
    ensures next { result ≡ start_of (choice_of asked.now end.0 latest.0) }
    ensures known { KnownOf asked.now known.new }
{
    if latest < end {
        return None;
    }
    start_granted(asked.first_event(known, end, latest))
}

// Where the possible minutes from a possible start on end: at the first minute that is not, or after latest. A span that
// moves on is tried again only where its end meets an event.
fn run_end(asked: &Asked, known: &mut Known, start: Minute, latest: Minute) -> Minute
    requires askable { AskableOf asked.now start.0 latest.0 }
    requires known { KnownOf asked.now known.old }
    requires in_window { start.0 ≤ latest.0 }
    requires possible { possible_of asked.now start.0 ≡ true }
    ensures run { RunEnd (possible_of asked.now) start.0 (suc latest.0) result.0 }
    ensures known { KnownOf asked.now known.new }
{
    let span = asked.search.span;
    let mut end = end_minute(start, span).0;
    let last_end = end_minute(latest, span).0;
    for &event in asked.table.events {
        if last_end <= event {
            return Minute(latest.0 + 1);
        }
        if end <= event {
            let next = Minute(event + 1 - span.0);
            if !asked.possible_at(known, next) {
                return next;
            }
            end = event + 1;
        }
    }
    Minute(latest.0 + 1)
}

// The ranges of possible start minutes of low to latest, written with zeros behind them; how many there are.
pub fn list_ranges(asked: &Asked, low: Minute, latest: Minute, list: &mut [u32]) -> u32
    requires askable { AskableOf asked.now low.0 latest.0 }
    requires events_fit { length asked.now.table.events.now ≤ most_ranges }
    requires list_sized { length list.old ≡ list_size }
    ensures count { result ≡ length (ranges_of asked.now low.0 latest.0) }
    ensures written { list.new ≡ list_table (ranges_of asked.now low.0 latest.0) }
{
    let mut known = nothing_known();
    let mut count: u32 = 0;
    let mut next = start_granted(asked.first_start(&mut known, low, latest));
    while let Some(start) = next {
        let end = run_end(asked, &mut known, start, latest);
        let place = count as usize * 2;
        list[place] = start.0;
        list[place + 1] = end.0 - 1;
        count += 1;
        next = next_start(asked, &mut known, end, latest);
    }
    list[count as usize * 2..].fill(0);
    count
}
