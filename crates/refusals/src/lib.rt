// The checks of the calls, in document 01's order: each function answers the refusal of the first check that a call does
// not pass, if there is one. Nothing here writes a table.
#![tactic(auto, unfolding(rules::specs::Calls::checked))]

ghost use Rattle.std.specs.Prelude.{◌≡◌, [], true, ◌*◌, ◌≤◌, eqb, ltb, length};
ghost use Rattle.units.specs.Limits.{place_size, list_size};
ghost use Rattle.units.specs.Refusals.{number_of};
ghost use Rattle.rules.specs.Calls.{Ask, set_up, first_refusal, own_checks};
ghost use Rattle.rules.specs.Tables.{held, held_by, lent_checks, table_checks};
ghost use Rattle.lent.specs.Lent.{tables_in};

use lent::LentTables;
use limits::{guard_ok, links_right, number_ok, request_ok, sized};
use places::find;
use soundness::sound;
use units::{
    BOOKINGS, Duration, Head, LIST_FIGURES, Link, LinkNumber, MAX_MINUTE, MAX_SHOWN, Minute, PLACE,
    Refusal, Request, low_minute,
};

// The first check of its own that an offer does not pass.
pub fn check_offer(head: Head, request: Request) -> Result<(), Refusal>
    ensures { number_of result ≡ first_refusal (own_checks [] (held_by head []) (Ask.offer request)) }
{
    if !request_ok(request) {
        return Err(Refusal::BadField);
    }
    if request.latest < low_minute(head, request) {
        return Err(Refusal::TooLate);
    }
    Ok(())
}

// The first check of its own that a booking does not pass.
pub fn check_booking(tables: &LentTables<'_>, number: u32, request: Request) -> Result<(), Refusal>
    requires { tables.now.head.bookings * place_size ≤ length tables.now.book.now }
    ensures { number_of result ≡ first_refusal (own_checks [] (held (tables_in tables.now)) (Ask.book number request)) }
{
    if !number_ok(number) {
        return Err(Refusal::BadField);
    }
    check_offer(tables.head, request)?;
    let count = tables.head.bookings as usize;
    if find(tables.book, PLACE, count, number).is_some() {
        return Err(Refusal::NumberStands);
    }
    if BOOKINGS <= count {
        return Err(Refusal::BookFull);
    }
    Ok(())
}

// The first check of its own that a cancellation does not pass.
pub fn check_cancel(tables: &LentTables<'_>, number: u32) -> Result<(), Refusal>
    requires { tables.now.head.bookings * place_size ≤ length tables.now.book.now }
    ensures { number_of result ≡ first_refusal (own_checks [] (held (tables_in tables.now)) (Ask.cancel number)) }
{
    if !number_ok(number) {
        return Err(Refusal::BadField);
    }
    let count = tables.head.bookings as usize;
    if find(tables.book, PLACE, count, number).is_none() {
        return Err(Refusal::NotStanding);
    }
    Ok(())
}

// The first check of its own that a clock move does not pass.
pub fn check_clock(head: Head, minute: Minute) -> Result<(), Refusal>
    ensures { number_of result ≡ first_refusal (own_checks [] (held_by head []) (Ask.move_clock minute.0)) }
{
    if MAX_MINUTE < minute.0 {
        return Err(Refusal::BadField);
    }
    if minute < head.clock {
        return Err(Refusal::ClockBack);
    }
    Ok(())
}

// Whether a link is on the list.
fn on_list(links: &[Link], link: LinkNumber) -> bool
    ensures { result ≡ ltb link.0 (length links.now) }
{
    (link.0 as usize) < links.len()
}

// The first check of its own that a showing does not pass.
pub fn check_show(tables: &LentTables<'_>, link: LinkNumber, minute: Minute) -> Result<(), Refusal>
    ensures { number_of result ≡ first_refusal (own_checks tables.now.links.now (held (tables_in tables.now)) (Ask.show link.0 minute.0)) }
{
    if !on_list(tables.links, link) {
        return Err(Refusal::BadField);
    }
    if !(tables.head.clock.0..=MAX_SHOWN).contains(&minute.0) {
        return Err(Refusal::BadField);
    }
    Ok(())
}

// The first check of its own that a question for a total does not pass.
pub fn check_sold(tables: &LentTables<'_>, link: LinkNumber) -> Result<(), Refusal>
    ensures { number_of result ≡ first_refusal (own_checks tables.now.links.now (held (tables_in tables.now)) (Ask.sold link.0)) }
{
    if !on_list(tables.links, link) {
        return Err(Refusal::BadField);
    }
    Ok(())
}

// The first check that a set-up does not pass: the sizes of what is lent, the guard, and the links.
pub fn check_set_up(tables: &LentTables<'_>, guard: Duration) -> Result<(), Refusal>
    ensures { number_of result ≡ first_refusal (table_checks tables.now.links.now (tables_in tables.now) (set_up guard.0)) }
{
    if !sized(tables) {
        return Err(Refusal::BadSize);
    }
    if !guard_ok(guard) {
        return Err(Refusal::BadField);
    }
    if !links_right(tables.links) {
        return Err(Refusal::BadLink);
    }
    Ok(())
}

// The first check of the tables that a call does not pass: their sizes, and whether they are sound.
pub fn check_tables(tables: &LentTables<'_>) -> Result<(), Refusal>
    ensures { number_of result ≡ first_refusal (lent_checks tables.now.links.now (tables_in tables.now) true) }
{
    if !sized(tables) {
        return Err(Refusal::BadSize);
    }
    if !sound(tables) {
        return Err(Refusal::Unsound);
    }
    Ok(())
}

// The same of a listing, which is lent a list too: its size comes behind the tables' and before whether they are sound.
pub fn check_listing(tables: &LentTables<'_>, list: usize) -> Result<(), Refusal>
    ensures { number_of result ≡ first_refusal (lent_checks tables.now.links.now (tables_in tables.now) (eqb list list_size)) }
{
    if sized(tables) && list != LIST_FIGURES {
        return Err(Refusal::BadList);
    }
    check_tables(tables)
}
