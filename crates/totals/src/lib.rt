// The sold work of each link, kept ready: a booking's work added to the totals of its links or dropped from them, and all totals anew
// from a head and its book. Booking adds one, cancelling drops one; the soundness check goes through all. Nothing here knows what is free.
#![tactic(auto)]

ghost use Rattle.std.specs.Prelude.{◌≡◌, true, ◌↔◌, ◌≤◌, ◌<◌, length};
ghost use Rattle.units.specs.Limits.{most_totals, most_bookings, most_hops};
ghost use Rattle.units.specs.Lists.{All};
ghost use Rattle.units.specs.Work.{most_work};
ghost use Rattle.units.specs.Along.{more_along, less_along};
ghost use Rattle.book.specs.Places.{place_path};
ghost use Rattle.rules.specs.Tables.{held_by};
ghost use Rattle.totals.specs.Totals.{place_work, without_ended, still_standing, totals_of, AtMost, WorkRight, CanTotal};

use book::{Booking, booking_at, path_at};
use units::{Head, TOTALS, Work, release, work_of};

// Adds work to the total of each link of a path.
#[tactic(auto, using(units::proofs::Along::more_done))]
fn add_along(totals: &mut [u64], path: &[u32], work: Work)
    requires fits { work.0 ≤ most_work }
    requires short { length path.now ≤ most_hops }
    requires on_list { All (λ l. l < most_totals) path.now }
    requires sized { length totals.old ≡ most_totals }
    requires few { AtMost most_bookings totals.old }
    ensures { totals.new ≡ more_along work.0 path.now totals.old }
{
    for &link in path {
        totals[link as usize] += work.0;
    }
}

// Adds a booking's work to the total of each link of its path.
pub fn add_work(totals: &mut [u64], booking: Booking)
    requires right { WorkRight booking }
    requires sized { length totals.old ≡ most_totals }
    requires few { AtMost most_bookings totals.old }
    ensures { totals.new ≡ more_along (place_work booking) (place_path booking) totals.old }
{
    let path = &booking.links[..booking.count as usize];
    add_along(totals, path, work_of(booking.bandwidth, booking.duration));
}

// Drops a booking's work from the total of each link of its path.
#[tactic(auto, using(units::proofs::Along::less_next, units::proofs::Along::less_done))]
pub fn drop_work(totals: &mut [u64], booking: Booking)
    requires right { WorkRight booking }
    requires sized { length totals.old ≡ most_totals }
    ensures { totals.new ≡ less_along (place_work booking) (place_path booking) totals.old }
{
    let work = work_of(booking.bandwidth, booking.duration);
    for &link in &booking.links[..booking.count as usize] {
        totals[link as usize] = totals[link as usize].saturating_sub(work.0);
    }
}

// The same, where the booking has ended at the head's clock.
fn drop_if_ended(head: Head, totals: &mut [u64], booking: Booking)
    requires right { WorkRight booking }
    requires sized { length totals.old ≡ most_totals }
    ensures { totals.new ≡ without_ended head booking totals.old }
{
    if (head.clock.0 as u64) < release(head, booking.start, booking.duration) {
        return;
    }
    drop_work(totals, booking);
}

// Drops the work of those bookings of the head that have ended at its clock.
pub fn drop_ended_work(head: Head, book: &[u32], totals: &mut [u64])
    requires can { CanTotal head book.now }
    requires were { totals.old ≡ totals_of (held_by head book.now).bookings }
    ensures { totals.new ≡ totals_of (still_standing head book.now) }
{
    for place in 0..head.bookings as usize {
        drop_if_ended(head, totals, booking_at(book, place));
    }
}

// The totals of a head and its book, whatever the table held.
pub fn write_totals(head: Head, book: &[u32], totals: &mut [u64])
    requires can { CanTotal head book.now }
    requires sized { length totals.old ≡ most_totals }
    ensures { totals.new ≡ totals_of (held_by head book.now).bookings }
{
    totals.fill(0);
    for place in (0..head.bookings as usize).rev() {
        let booking = booking_at(book, place);
        let work = work_of(booking.bandwidth, booking.duration);
        add_along(totals, path_at(book, place), work);
    }
}

// Whether the totals are the ones that a head and its book give.
pub fn totals_right(head: Head, book: &[u32], totals: &[u64]) -> bool
    requires { CanTotal head book.now }
    ensures { (result ≡ true) ↔ (totals.now ≡ totals_of (held_by head book.now).bookings) }
{
    let mut sums = [0; TOTALS];
    write_totals(head, book, &mut sums);
    totals == sums.as_slice()
}
