// The eight calls of a desk in the static library that C links, in the forms that document 01 names: the links lent for reading
// as a list of records, the head lent and renewed where it stands, events, free figures, book and totals as lent slices. Each call hands
// what it is lent to its core in `desk_core` and makes the answer for C; nothing is decided here. Every call is answered for
// every input. `include/gcr_desk.h` declares them.
#![tactic(auto)]

ghost use Rattle.std.specs.Prelude.{◌≡◌, length};
ghost use Rattle.rules.specs.Calls.{Ask, set_up, ask};
ghost use Rattle.rules.specs.Tables.{lent};
ghost use Rattle.sound_calls.specs.Lent.{choice_answer, listed_answer, list_after, shown_answer, sold_answer, refusal_answer, tables_after};

use choice::ChoiceRecord;
use desk_core::{
    Listed, Shown, Sold, cancel, list_starts, make_booking, move_clock, offer, set_up, show,
    sold_work,
};
use lent::{Desk, LentTables};
use units::{Duration, Head, Link, LinkNumber, Minute, Request, refusal_number};

// Sets a desk up at minute 0 with a guard, with no bookings and all capacity free, whatever the tables held. Refuses 1, 4 and 2,
// in this order.
#[unsafe(no_mangle)]
pub extern "C" fn gcr_set_up(
    head: &mut Head,
    links: &[Link],
    events: &mut [u32],
    free: &mut [u32],
    book: &mut [u32],
    totals: &mut [u64],
    guard: Duration,
) -> u32
    ensures { let t = lent head.old events.old free.old book.old totals.old in
        (result ≡ refusal_answer links.now t (set_up guard.0))
        × (lent head.new events.new free.new book.new totals.new ≡ tables_after links.now t (set_up guard.0)) }
{
    let mut desk = Desk {
        head,
        links,
        events,
        free,
        book,
        totals,
    };
    refusal_number(set_up(&mut desk, guard))
}

// Books the earliest start of the request's window. Refuses 1, 3, 4, 5, 6, 7 and 8.
#[unsafe(no_mangle)]
pub extern "C" fn gcr_book(
    head: &mut Head,
    links: &[Link],
    events: &mut [u32],
    free: &mut [u32],
    book: &mut [u32],
    totals: &mut [u64],
    number: u32,
    request: Request,
) -> ChoiceRecord
    ensures { let t = lent head.old events.old free.old book.old totals.old in
        (result ≡ choice_answer links.now t (ask (Ask.book number request)))
        × (lent head.new events.new free.new book.new totals.new ≡ tables_after links.now t (ask (Ask.book number request))) }
{
    let mut desk = Desk {
        head,
        links,
        events,
        free,
        book,
        totals,
    };
    ChoiceRecord::from(make_booking(&mut desk, number, request))
}

// A booking without commitment or number; it writes no table. Refuses 1, 3, 4, 5 and 8.
#[unsafe(no_mangle)]
pub extern "C" fn gcr_offer(
    head: &Head,
    links: &[Link],
    events: &[u32],
    free: &[u32],
    book: &[u32],
    totals: &[u64],
    request: Request,
) -> ChoiceRecord
    ensures { result ≡ choice_answer links.now (lent head.now events.now free.now book.now totals.now) (ask (Ask.offer request)) }
{
    let tables = LentTables {
        head: *head,
        links,
        events,
        free,
        book,
        totals,
    };
    ChoiceRecord::from(offer(&tables, request))
}

// Every start there is: the ranges of possible start minutes of an offer's window, first and last of each, written into the
// list with zeros behind them; it writes no table. Refuses 1, 13, 3, 4 and 5, and then leaves the list as it came.
#[unsafe(no_mangle)]
pub extern "C" fn gcr_list_starts(
    head: &Head,
    links: &[Link],
    events: &[u32],
    free: &[u32],
    book: &[u32],
    totals: &[u64],
    request: Request,
    list: &mut [u32],
) -> Listed
    ensures { let t = lent head.now events.now free.now book.now totals.now in
        (result ≡ listed_answer links.now t (ask (Ask.list (length list.old) request)))
        × (list.new ≡ list_after links.now t (ask (Ask.list (length list.old) request)) list.old) }
{
    let tables = LentTables {
        head: *head,
        links,
        events,
        free,
        book,
        totals,
    };
    Listed::from(list_starts(&tables, request, list))
}

// Takes a booking out; its figures come back from the clock on. Refuses 1, 3, 4 and 9.
#[unsafe(no_mangle)]
pub extern "C" fn gcr_cancel(
    head: &mut Head,
    links: &[Link],
    events: &mut [u32],
    free: &mut [u32],
    book: &mut [u32],
    totals: &mut [u64],
    number: u32,
) -> u32
    ensures { let t = lent head.old events.old free.old book.old totals.old in
        (result ≡ refusal_answer links.now t (ask (Ask.cancel number)))
        × (lent head.new events.new free.new book.new totals.new ≡ tables_after links.now t (ask (Ask.cancel number))) }
{
    let mut desk = Desk {
        head,
        links,
        events,
        free,
        book,
        totals,
    };
    refusal_number(cancel(&mut desk, number))
}

// Moves the clock on; bookings whose end and guard are over then are dropped. Refuses 1, 3, 4 and 10.
#[unsafe(no_mangle)]
pub extern "C" fn gcr_move_clock(
    head: &mut Head,
    links: &[Link],
    events: &mut [u32],
    free: &mut [u32],
    book: &mut [u32],
    totals: &mut [u64],
    minute: Minute,
) -> u32
    ensures { let t = lent head.old events.old free.old book.old totals.old in
        (result ≡ refusal_answer links.now t (ask (Ask.move_clock minute.0)))
        × (lent head.new events.new free.new book.new totals.new ≡ tables_after links.now t (ask (Ask.move_clock minute.0))) }
{
    let mut desk = Desk {
        head,
        links,
        events,
        free,
        book,
        totals,
    };
    refusal_number(move_clock(&mut desk, minute))
}

// The bandwidth that a link has free in a minute; it writes no table. Refuses 1, 3 and 4.
#[unsafe(no_mangle)]
pub extern "C" fn gcr_show(
    head: &Head,
    links: &[Link],
    events: &[u32],
    free: &[u32],
    book: &[u32],
    totals: &[u64],
    link: LinkNumber,
    minute: Minute,
) -> Shown
    ensures { result ≡ shown_answer links.now (lent head.now events.now free.now book.now totals.now) (ask (Ask.show link.0 minute.0)) }
{
    let tables = LentTables {
        head: *head,
        links,
        events,
        free,
        book,
        totals,
    };
    Shown::from(show(&tables, link, minute))
}

// The sold work of a link: the sum, over the standing bookings that use it, of bandwidth times duration; it writes no table. Refuses 1, 3 and 4.
#[unsafe(no_mangle)]
pub extern "C" fn gcr_sold_work(
    head: &Head,
    links: &[Link],
    events: &[u32],
    free: &[u32],
    book: &[u32],
    totals: &[u64],
    link: LinkNumber,
) -> Sold
    ensures { result ≡ sold_answer links.now (lent head.now events.now free.now book.now totals.now) (ask (Ask.sold link.0)) }
{
    let tables = LentTables {
        head: *head,
        links,
        events,
        free,
        book,
        totals,
    };
    Sold::from(sold_work(&tables, link))
}
