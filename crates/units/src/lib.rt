// The quantities of a reservation, each with a type of its own, the records that calls pass by value, and the limits
// of document 01; its refusals and their numbers; the end of a span; and a field of links as a column. Every crate uses them;
// nothing here decides anything.
#![tactic(auto)]

ghost use Rattle.std.specs.Prelude.{◌≡◌, ℕ, ◌≤◌};
ghost use Rattle.units.specs.Limits.{last_shown};
ghost use Rattle.units.specs.Refusals.{number, number_of, without_minute};
ghost use Rattle.units.specs.Spans.{low_of, span_of, most_span, release};
ghost use Rattle.units.specs.Work.{work_of};
ghost use Rattle.units.specs.declared.Link.{Link};
ghost use Rattle.units.specs.Columns.{column, Reads};

// The last node; nodes are numbered from 0.
pub const LAST_NODE: u32 = 31;

// The most links of a desk.
pub const LINKS: usize = 64;

// The figures of a row of the free table, one for each link that there may be.
pub const ROW: usize = LINKS;

// The totals of sold work, one for each link that there may be.
pub const TOTALS: usize = LINKS;

// The most links of a path: it meets no node twice.
pub const PATH_LINKS: usize = 31;

// The most bookings that stand at a time.
pub const BOOKINGS: usize = 64;

// The last booking number; they start at 1.
pub const MAX_NUMBER: u32 = 16383;

// The largest bandwidth or capacity, in Mb/s; both start at 1.
pub const MAX_BANDWIDTH: u32 = 1000000;

// The longest duration, in minutes; durations start at 1.
pub const MAX_DURATION: u32 = 525600;

// The last minute; an open latest start is read as this one.
pub const MAX_MINUTE: u32 = 1000000000;

// The longest guard, in minutes.
pub const MAX_GUARD: u32 = 15;

// The last minute for which a free figure may be asked.
pub const MAX_SHOWN: u32 = MAX_MINUTE + MAX_DURATION + MAX_GUARD;

// The most events: the clock, and a start and an end for each booking.
pub const EVENTS: usize = 2 * BOOKINGS + 1;

// The figures of a place of the book: number, start, duration, bandwidth, count of links, and the path.
pub const PLACE: usize = 5 + PATH_LINKS;

// The figures of the whole free table, and of the whole book.
pub const FREE_FIGURES: usize = EVENTS * ROW;

pub const BOOK_FIGURES: usize = BOOKINGS * PLACE;

// The most ranges of possible starts in a window: one begins at low, any other at an event after it.
pub const RANGES: usize = EVENTS;

// The figures of the list of ranges: first and last of each.
pub const LIST_FIGURES: usize = RANGES * 2;

// Why a call is refused. As a number it is that of documents 01 and 02; 0 is the number of an accepted call.
#[derive(Clone, Copy, Debug, PartialEq, Eq)]
pub enum Refusal {
    BadSize = 1,
    BadLink = 2,
    Unsound = 3,
    BadField = 4,
    TooLate = 5,
    NumberStands = 6,
    BookFull = 7,
    NoStart = 8,
    NotStanding = 9,
    ClockBack = 10,
    BadBits = 11,
    BadLength = 12,
    BadList = 13,
}

impl From<Refusal> for u32 {
    ghost from_gives = { λ refusal figure. figure ≡ number refusal };

    fn from(refusal: Refusal) -> u32 {
        refusal as u32
    }
}

// The number of an answer with nothing beside it: 0, or that of its refusal.
pub fn refusal_number(answer: Result<(), Refusal>) -> u32
    ensures { result ≡ number_of answer }
{
    answer.err().map_or(0, u32::from)
}

// A point in time, in whole minutes.
#[repr(C)]
#[derive(Clone, Copy, PartialEq, Eq, PartialOrd, Ord)]
pub struct Minute(pub u32);

// Why a call is refused, with a minute: beside `NoStart` that at which every path from low on breaks off, beside any other refusal 0.
#[derive(Clone, Copy)]
pub struct Refused {
    pub refusal: Refusal,
    pub at: Minute,
}

impl From<Refusal> for Refused {
    ghost from_gives = { λ refusal refused. refused ≡ without_minute refusal };

    fn from(refusal: Refusal) -> Refused {
        Refused {
            refusal,
            at: Minute(0),
        }
    }
}

// A length of time, in whole minutes.
#[repr(C)]
#[derive(Clone, Copy)]
pub struct Duration(pub u32);

// A bandwidth, in Mb/s.
#[repr(C)]
#[derive(Clone, Copy)]
pub struct Bandwidth(pub u32);

// Sold work: a bandwidth times the minutes for which it is sold, in Mb/s times minutes.
#[repr(C)]
#[derive(Clone, Copy)]
pub struct Work(pub u64);

// A link's place in the link list, from 0.
#[repr(C)]
#[derive(Clone, Copy)]
pub struct LinkNumber(pub u32);

// A link from one node to another, one way.
#[repr(C)]
#[derive(Clone, Copy)]
pub struct Link {
    pub from: u32,
    pub to: u32,
    pub capacity: Bandwidth,
}

// What a customer asks for. A latest start that is open is given as the last minute.
#[repr(C)]
#[derive(Clone, Copy)]
pub struct Request {
    pub from: u32,
    pub to: u32,
    pub bandwidth: Bandwidth,
    pub duration: Duration,
    pub earliest: Minute,
    pub latest: Minute,
}

// The head of a desk: its clock, its number of links, its number of standing bookings, and its guard: the minutes for which a
// booking goes on holding its links behind its end.
#[repr(C)]
#[derive(Clone, Copy)]
pub struct Head {
    pub clock: Minute,
    pub links: u32,
    pub bookings: u32,
    pub guard: Duration,
}

// Document 01's low, the start of a request's window: the later of its earliest start and the clock.
pub fn low_minute(head: Head, request: Request) -> Minute
    ensures { result.0 ≡ low_of head request }
{
    request.earliest.max(head.clock)
}

// The minutes for which a booking of a duration holds its links.
pub fn span_of(head: Head, duration: Duration) -> u64
    ensures { result ≡ span_of head duration.0 }
{
    duration.0 as u64 + head.guard.0 as u64
}

// The end of a span: the first minute after it. Nothing else adds a start and a span.
pub fn end_of(start: Minute, span: u64) -> u64
    requires { span ≤ most_span }
    ensures { result ≡ release start.0 span }
{
    start.0 as u64 + span
}

// The same, of a span that ends at a minute for which a free figure may be asked.
pub fn end_minute(start: Minute, span: Duration) -> Minute
    requires { release start.0 span.0 ≤ last_shown }
    ensures { result.0 ≡ release start.0 span.0 }
{
    Minute(end_of(start, span.0 as u64) as u32)
}

// The minute at which a booking releases its links.
pub fn release(head: Head, start: Minute, duration: Duration) -> u64
    ensures { result ≡ release start.0 (span_of head duration.0) }
{
    end_of(start, span_of(head, duration))
}

// The work of a booking on each of its links. Nothing else multiplies a bandwidth and a duration.
pub fn work_of(bandwidth: Bandwidth, duration: Duration) -> Work
    ensures { result.0 ≡ work_of bandwidth.0 duration.0 }
{
    Work(bandwidth.0 as u64 * duration.0 as u64)
}

// A field of the first 64 links of a list, zero past the last.
pub fn column<F: Fn(&Link) -> u32>(links: &[Link], read: F) -> [u32; LINKS]
    requires { F.IsAlwaysCallable read }
    ensures { (field : Link → ℕ) → Reads F.Fn read field → result ≡ column field links.now }
{
    let mut column = [0; LINKS];
    for (i, link) in links[..links.len().min(LINKS)].iter().enumerate() {
        column[i] = read(link);
    }
    column
}
