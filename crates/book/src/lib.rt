// The bandwidth desk's places: 36 figures, a booking each. The desk calls this to read a place and to put a booking in; what
// asks no more than a place's size stands in `places`. It never sees what is free.
#![tactic(auto)]

ghost use Rattle.std.specs.Prelude.{◌≡◌, ◌++◌, ◌+◌, ◌*◌, ◌≤◌, length, drop};
ghost use Rattle.units.specs.Limits.{place_size, most_hops};
ghost use Rattle.book.specs.Places.{booking_in, place_path, figures, with_booking};

use places::{DURATION, START, open_place};
use units::{Bandwidth, Duration, Minute, PATH_LINKS, PLACE};

// Where the figures behind number, start and duration stand in a place.
const BANDWIDTH: usize = 3;

const COUNT: usize = 4;

const PATH: usize = 5;

// A booking as a place of the book holds it: a path of `count` links, zero past the last.
#[repr(C)]
#[derive(Clone, Copy)]
pub struct Booking {
    pub number: u32,
    pub start: Minute,
    pub duration: Duration,
    pub bandwidth: Bandwidth,
    pub count: u32,
    pub links: [u32; PATH_LINKS],
}

// The booking at a place.
pub fn booking_at(book: &[u32], place: usize) -> Booking
    requires { place * place_size + place_size ≤ length book.now }
    ensures { result ≡ booking_in book.now place }
{
    let at = place * PLACE;
    Booking {
        number: book[at],
        start: Minute(book[at + START]),
        duration: Duration(book[at + DURATION]),
        bandwidth: Bandwidth(book[at + BANDWIDTH]),
        count: book[at + COUNT],
        links: *book[at + PATH..].first_chunk().unwrap(),
    }
}

// The links of the path of the booking at a place.
pub fn path_at(book: &[u32], place: usize) -> &[u32]
    requires sized { place * place_size + place_size ≤ length book.now }
    requires short { (booking_in book.now place).count ≤ most_hops }
    ensures { result.now ≡ place_path (booking_in book.now place) }
{
    let at = place * PLACE;
    let count = book[at + COUNT] as usize;
    let links = &book[at + PATH..at + PLACE];
    &links[..count]
}

// Writes a booking over the first place of the part.
fn write_place(part: &mut [u32], booking: Booking)
    requires { place_size ≤ length part.old }
    ensures { part.new ≡ figures booking ++ drop place_size part.old }
{
    part[0] = booking.number;
    part[START] = booking.start.0;
    part[DURATION] = booking.duration.0;
    part[BANDWIDTH] = booking.bandwidth.0;
    part[COUNT] = booking.count;
    part[PATH..PLACE].copy_from_slice(&booking.links);
}

// Puts a booking in at a place; those behind it move up.
pub fn insert_booking(book: &mut [u32], place: usize, booking: Booking)
    requires { place * place_size + place_size ≤ length book.old }
    ensures { book.new ≡ with_booking place booking book.old }
{
    open_place(book, PLACE, place);
    let from = place * PLACE;
    write_place(&mut book[from..], booking);
}
