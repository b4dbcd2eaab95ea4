// What changes at each row of the events: the places of the book whose bookings begin to hold their links there and those that
// release them, as sets; and whether the lent free figures are what these leave of the capacities, row by row. The soundness
// check asks it. Nothing here writes a lent table.
#![tactic(auto)]

ghost use Rattle.std.specs.Prelude.{◌≡◌, ◌⊎◌, ℕ, true, ◌↔◌, ◌+◌, ◌*◌, ◌≤◌, ◌<◌, length, get_or};
ghost use Rattle.std.specs.List.{list_all};
ghost use Rattle.units.specs.Limits.{most_links, most_events, most_bookings, most_hops, most_bandwidth};
ghost use Rattle.units.specs.Lists.{All, Distinct};
ghost use Rattle.units.specs.Along.{more_along, less_along};
ghost use Rattle.timeline.specs.Events.{row_at};
ghost use Rattle.book.specs.Places.{booking_in, place_path};
ghost use Rattle.rules.specs.Tables.{held_by};
ghost use Rattle.row_changes.specs.Changes.{RowsRight, PlaceFits, BookFits, start_row, end_row, Found, BothFound, with_place, Marks, used_by, Counted, StepRight, AtMost, RowRight};

use book::{booking_at, path_at};
use timeline::UsedEvents;
use units::{Bandwidth, EVENTS, Head, LINKS, Link, Minute, ROW, column, release};

// The places whose bookings begin to hold their links at each row, and those whose bookings release them there.
#[derive(Clone, Copy)]
struct RowChanges {
    starts: [u64; EVENTS],
    ends: [u64; EVENTS],
}

// Puts a place into the set of the row that holds in a minute. Whether the minute is an event, or before the clock.
#[tactic(auto, using(timeline::proofs::Halving::inside))]
fn mark(events: UsedEvents<'_>, sets: &mut [u64; EVENTS], place: usize, minute: Minute) -> bool
    requires few { length events.events.now ≤ most_events }
    requires small { place < most_bookings }
    ensures marked { sets.new ≡ with_place (row_at events.entry.events.now minute.0) place sets.old }
    ensures found { (result ≡ true) ↔ Found events.entry.events.now minute.0 }
{
    let row = events.row_at(minute);
    sets[row] |= 1 << place;
    minute.0 <= events.events[row]
}

// Adds a bandwidth to what is taken of each link of a path.
#[tactic(auto, using(units::proofs::Along::more_done))]
fn take_path(taken: &mut [u32; LINKS], path: &[u32], bandwidth: Bandwidth)
    requires path { All (λ l. l < most_links) path.now }
    requires short { length path.now ≤ most_hops }
    requires fits { bandwidth.0 ≤ most_bandwidth }
    requires few { AtMost most_bookings taken.old }
    ensures { taken.new ≡ more_along bandwidth.0 path.now taken.old }
{
    for &link in path {
        taken[link as usize] += bandwidth.0;
    }
}

// Takes it off again.
#[tactic(auto, using(units::proofs::Along::less_done))]
fn release_path(taken: &mut [u32; LINKS], path: &[u32], bandwidth: Bandwidth)
    requires path { All (λ l. l < most_links) path.now }
    requires differ { Distinct path.now }
    requires enough { All (λ l. bandwidth.0 ≤ get_or taken.old l 0) path.now }
    ensures { taken.new ≡ less_along bandwidth.0 path.now taken.old }
{
    for &link in path {
        taken[link as usize] -= bandwidth.0;
    }
}

// Adds what the bookings of a set of places use of each link.
fn take_places(taken: &mut [u32; LINKS], head: Head, book: &[u32], places: u64)
    requires fits { BookFits head book.now }
    requires counted { Counted head places }
    requires room { (l : ℕ) → get_or taken.old l 0 + used_by book.now places l ≤ most_bookings * most_bandwidth }
    ensures { (l : ℕ) → get_or taken.new l 0 ≡ get_or taken.old l 0 + used_by book.now places l }
{
    let mut left = places;
    while left != 0 {
        let place = left.trailing_zeros() as usize;
        let bandwidth = booking_at(book, place).bandwidth;
        take_path(taken, path_at(book, place), bandwidth);
        left &= left - 1;
    }
}

// Takes it off again.
fn release_places(taken: &mut [u32; LINKS], head: Head, book: &[u32], places: u64)
    requires fits { BookFits head book.now }
    requires counted { Counted head places }
    requires enough { (l : ℕ) → used_by book.now places l ≤ get_or taken.old l 0 }
    ensures { (l : ℕ) → get_or taken.new l 0 + used_by book.now places l ≡ get_or taken.old l 0 }
{
    let mut left = places;
    while left != 0 {
        let place = left.trailing_zeros() as usize;
        let bandwidth = booking_at(book, place).bandwidth;
        release_path(taken, path_at(book, place), bandwidth);
        left &= left - 1;
    }
}

// Whether in a row what each link has free and what is taken of it are its capacity. With no branch it is compiled for several
// links at a time.
#[inline(never)]
fn row_right(capacities: &[u32; LINKS], taken: &[u32; LINKS], row: &[u32; ROW]) -> bool
    ensures { (result ≡ true) ↔ RowRight capacities.now taken.now row.now }
{
    let mut right = true;
    for link in 0..LINKS {
        let within = taken[link] <= capacities[link];
        let left = capacities[link].wrapping_sub(taken[link]);
        right &= within & (left == row[link]);
    }
    right
}

// Finds what changes at each row. Whether every end, and every start behind the clock, is an event.
fn find_changes(head: Head, events: UsedEvents<'_>, book: &[u32], changes: &mut RowChanges) -> bool
    requires fits { BookFits head book.now }
    requires few { length events.events.now ≤ most_events }
    requires no_starts { (r : ℕ) → get_or changes.old.starts r 0 ≡ 0 }
    requires no_ends { (r : ℕ) → get_or changes.old.ends r 0 ≡ 0 }
    ensures found { (result ≡ true) ↔ ((i : ℕ) → i < head.bookings → BothFound head events.entry.events.now book.now i) }
    ensures starts { Marks (start_row events.entry.events.now book.now) head.bookings changes.new.starts }
    ensures ends { Marks (end_row head events.entry.events.now book.now) head.bookings changes.new.ends }
{
    let mut found = true;
    for place in 0..head.bookings as usize {
        let booking = booking_at(book, place);
        let start = booking.start;
        let end = Minute(release(head, start, booking.duration) as u32);
        found &= mark(events, &mut changes.starts, place, start);
        found &= mark(events, &mut changes.ends, place, end);
    }
    found
}

// What is taken after a row, from what was before it.
fn pass_row(taken: &mut [u32; LINKS], head: Head, book: &[u32], starts: u64, ends: u64)
    requires fits { BookFits head book.now }
    requires starts_counted { Counted head starts }
    requires ends_counted { Counted head ends }
    requires room { (l : ℕ) → get_or taken.old l 0 + used_by book.now starts l ≤ most_bookings * most_bandwidth }
    requires enough { (l : ℕ) → used_by book.now ends l ≤ get_or taken.old l 0 + used_by book.now starts l }
    ensures { (l : ℕ) → get_or taken.new l 0 + used_by book.now ends l ≡ get_or taken.old l 0 + used_by book.now starts l }
{
    take_places(taken, head, book, starts);
    release_places(taken, head, book, ends);
}

// Whether something changes at each row behind the first, and each row's figures are what the changes up to it leave.
fn steps_right(
    head: Head,
    events: UsedEvents<'_>,
    capacities: &[u32; LINKS],
    free: &[u32],
    book: &[u32],
    changes: &RowChanges,
) -> bool
    requires fits { BookFits head book.now }
    requires few { length events.events.now ≤ most_events }
    requires sized { length free.now ≡ most_events * most_links }
    requires starts { Marks (start_row events.events.now book.now) head.bookings changes.now.starts }
    requires ends { Marks (end_row head events.events.now book.now) head.bookings changes.now.ends }
    ensures { (result ≡ true) ↔ ((r : ℕ) → r < length events.entry.events.now → StepRight head events.entry.events.now capacities.now free.now book.now changes.now.starts changes.now.ends r) }
{
    let mut right = true;
    let mut taken = [0; LINKS];
    for row in 0..events.events.len() {
        let starts = changes.starts[row];
        let ends = changes.ends[row];
        pass_row(&mut taken, head, book, starts, ends);
        let figures = free[row * ROW..].first_chunk().unwrap();
        let changed = (row == 0) | (starts != 0) | (ends != 0);
        right &= changed & row_right(capacities, &taken, figures);
    }
    right
}

// Whether the used events are those of a head and its book, and in each row what each link has free and what the bookings take of
// it then are its capacity. A link that is oversold is not.
pub fn rows_right(
    head: Head,
    links: &[Link],
    events: UsedEvents<'_>,
    free: &[u32],
    book: &[u32],
) -> bool
    requires fits { BookFits head book.now }
    requires few_links { length links.now ≤ most_links }
    requires few { length events.events.now ≤ most_events }
    requires clock { get_or events.events.now 0 0 ≡ head.clock.0 }
    requires sized { length free.now ≡ most_events * most_links }
    ensures { (result ≡ true) ↔ RowsRight links.now (held_by head book.now) events.entry.events.now free.now }
{
    let mut changes = RowChanges {
        starts: [0; EVENTS],
        ends: [0; EVENTS],
    };
    if !find_changes(head, events, book, &mut changes) {
        return false;
    }
    let capacities = column(links, |link| link.capacity.0);
    steps_right(head, events, &capacities, free, book, &changes)
}
