// A book table: places of `size` figures, a booking each by rising number, zero past the last. A place begins with number,
// start and duration in every kind of desk; what stands behind them is the kind's own. A desk calls this to find a number,
// make room for a place, take one out and drop those that have ended. It never sees what is free.
#![tactic(auto)]

ghost use Rattle.std.specs.Prelude.{◌≡◌, ◌+◌, ◌*◌, ◌≤◌, ◌<◌, length};
ghost use Rattle.places.specs.Places.{duration_figure, find, slot, with_place, without_place, place_in, stands_at, still_standing, only_places};

use units::{Duration, Head, Minute, release};

// Where the start and the duration stand in a place; its number stands first.
pub const START: usize = 1;

pub const DURATION: usize = 2;

// Where a number stands among the first `count` places: at a place, or nowhere.
pub fn find(book: &[u32], size: usize, count: usize, number: u32) -> Option<usize>
    requires { (0 < size) × (count * size ≤ length book.now) }
    ensures { result ≡ find size number book.now count }
{
    book.chunks_exact(size)
        .take(count)
        .position(|place| place[0] == number)
}

// The place at which a number that does not stand is put in: behind the lower ones.
pub fn slot(book: &[u32], size: usize, count: usize, number: u32) -> usize
    requires { (0 < size) × (count * size ≤ length book.now) }
    ensures { result ≡ slot size number book.now count }
{
    book.chunks_exact(size)
        .take(count)
        .take_while(|place| place[0] <= number)
        .count()
}

// Opens a place: it and those behind it move up, and it keeps its figures until it is written over.
pub fn open_place(book: &mut [u32], size: usize, place: usize)
    requires { place * size + size ≤ length book.old }
    ensures { book.new ≡ with_place size place (place_in size book.old place) book.old }
{
    let from = place * size;
    book.copy_within(from..book.len() - size, from + size);
}

// Takes a place out: those behind it move down, and the last place becomes zero.
pub fn remove_place(book: &mut [u32], size: usize, place: usize)
    requires { place * size + size ≤ length book.old }
    ensures { book.new ≡ without_place size place book.old }
{
    let from = place * size;
    let last = book.len() - size;
    book.copy_within(from + size.., from);
    book[last..].fill(0);
}

// Whether the booking of a place still stands at the head's clock: it releases its links later.
fn stands(head: Head, place: &[u32]) -> bool
    requires { duration_figure < length place.now }
    ensures { result ≡ stands_at head place.now }
{
    let start = Minute(place[START]);
    let duration = Duration(place[DURATION]);
    (head.clock.0 as u64) < release(head, start, duration)
}

// Keeps, in order, those of the head's bookings that still stand at its clock, with zeros behind them; answers how many.
pub fn drop_ended(head: Head, book: &mut [u32], size: usize) -> usize
    requires { (duration_figure < size) × (head.bookings * size ≤ length book.old) }
    ensures { (result ≡ length (still_standing size head book.old head.bookings))
        × (book.new ≡ only_places (length book.old) (still_standing size head book.old head.bookings)) }
{
    let mut kept = 0;
    for place in 0..head.bookings as usize {
        let from = place * size;
        if stands(head, &book[from..from + size]) {
            book.copy_within(from..from + size, kept * size);
            kept += 1;
        }
    }
    book[kept * size..].fill(0);
    kept
}
