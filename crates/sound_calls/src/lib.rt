// The seven calls on a desk that is set up, on tables that are sound. No public calls: `desk_core` calls them behind its check
// of the tables, and so does the program, whose proof replaces the check. A refusal leaves every table as it came.
#![tactic(auto)]

ghost use Rattle.std.specs.Prelude.{◌≡◌, length};
ghost use Rattle.units.specs.Limits.{list_size};
ghost use Rattle.units.specs.Refusals.{number_of};
ghost use Rattle.choice.specs.Answer.{values};
ghost use Rattle.rules.specs.Calls.{Ask, ask};
ghost use Rattle.rules.specs.Tables.{Fine};
ghost use Rattle.lent.specs.Lent.{tables_in, tables_of, SameLoans};
ghost use Rattle.sound_calls.specs.Lent.{listed_values, shown_values, sold_values, choice_answer, listed_answer, list_after, shown_answer, sold_answer, refusal_answer, tables_after};

use changes::{advance, enter, take_out};
use choice::Granted;
use lent::{Desk, LentTables};
use refusals::{check_booking, check_cancel, check_clock, check_offer, check_show, check_sold};
use starts::{all_starts, best_start};
use units::{Bandwidth, LinkNumber, Minute, Refusal, Refused, Request, Work};

// What a showing is answered: the number of a refusal, 0 if there is none, and the free bandwidth.
#[repr(C)]
#[derive(Clone, Copy)]
pub struct Shown {
    pub refusal: u32,
    pub free: Bandwidth,
}

impl From<Result<Bandwidth, Refusal>> for Shown {
    ghost from_gives = { λ answer shown. shown ≡ shown_values answer };

    fn from(answer: Result<Bandwidth, Refusal>) -> Shown {
        match answer {
            Ok(free) => Shown { refusal: 0, free },
            Err(refusal) => Shown {
                refusal: u32::from(refusal),
                free: Bandwidth(0),
            },
        }
    }
}

// What a question for a link's total is answered: the number of a refusal, 0 if there is none, and the sold work.
#[repr(C)]
#[derive(Clone, Copy)]
pub struct Sold {
    pub refusal: u32,
    pub work: Work,
}

impl From<Result<Work, Refusal>> for Sold {
    ghost from_gives = { λ answer sold. sold ≡ sold_values answer };

    fn from(answer: Result<Work, Refusal>) -> Sold {
        match answer {
            Ok(work) => Sold { refusal: 0, work },
            Err(refusal) => Sold {
                refusal: u32::from(refusal),
                work: Work(0),
            },
        }
    }
}

// What a listing is answered: the number of a refusal, 0 if there is none, and the number of ranges.
#[repr(C)]
#[derive(Clone, Copy)]
pub struct Listed {
    pub refusal: u32,
    pub count: u32,
}

impl From<Result<u32, Refusal>> for Listed {
    ghost from_gives = { λ answer listed. listed ≡ listed_values answer };

    fn from(answer: Result<u32, Refusal>) -> Listed {
        match answer {
            Ok(count) => Listed { refusal: 0, count },
            Err(refusal) => Listed {
                refusal: u32::from(refusal),
                count: 0,
            },
        }
    }
}

// Takes a booking out; its figures come back from the clock on.
pub fn cancel(desk: &mut Desk<'_>, number: u32) -> Result<(), Refusal>
    requires { Fine desk.old.links.now (tables_of desk.old) }
    ensures loans { SameLoans desk.old desk.new }
    ensures answer { number_of result ≡ refusal_answer desk.old.links.now (tables_of desk.old) (ask (Ask.cancel number)) }
    ensures tables { tables_of desk.new ≡ tables_after desk.old.links.now (tables_of desk.old) (ask (Ask.cancel number)) }
{
    check_cancel(&desk.tables(), number)?;
    take_out(desk, number);
    Ok(())
}

// Moves the clock on; bookings whose end and guard are over then are dropped.
pub fn move_clock(desk: &mut Desk<'_>, minute: Minute) -> Result<(), Refusal>
    requires { Fine desk.old.links.now (tables_of desk.old) }
    ensures loans { SameLoans desk.old desk.new }
    ensures answer { number_of result ≡ refusal_answer desk.old.links.now (tables_of desk.old) (ask (Ask.move_clock minute.0)) }
    ensures tables { tables_of desk.new ≡ tables_after desk.old.links.now (tables_of desk.old) (ask (Ask.move_clock minute.0)) }
{
    check_clock(*desk.head, minute)?;
    advance(desk, minute);
    Ok(())
}

// The bandwidth that a link has free in a minute.
pub fn show(tables: &LentTables<'_>, link: LinkNumber, minute: Minute) -> Result<Bandwidth, Refusal>
    requires { Fine tables.now.links.now (tables_in tables.now) }
    ensures { shown_values result ≡ shown_answer tables.now.links.now (tables_in tables.now) (ask (Ask.show link.0 minute.0)) }
{
    check_show(tables, link, minute)?;
    Ok(tables.free_table().figure(link, minute))
}

// The sold work of a link: the sum, over the standing bookings that use it, of bandwidth times duration.
pub fn sold_work(tables: &LentTables<'_>, link: LinkNumber) -> Result<Work, Refusal>
    requires { Fine tables.now.links.now (tables_in tables.now) }
    ensures { sold_values result ≡ sold_answer tables.now.links.now (tables_in tables.now) (ask (Ask.sold link.0)) }
{
    check_sold(tables, link)?;
    Ok(Work(tables.totals[link.0 as usize]))
}

// Every start there is: the ranges of possible start minutes of an offer's window, and how many there are. It writes the
// list and no table.
pub fn list_starts(
    tables: &LentTables<'_>,
    request: Request,
    list: &mut [u32],
) -> Result<u32, Refusal>
    requires fine { Fine tables.now.links.now (tables_in tables.now) }
    requires list_sized { length list.old ≡ list_size }
    ensures answer { listed_values result ≡ listed_answer tables.now.links.now (tables_in tables.now) (ask (Ask.list (length list.old) request)) }
    ensures list_left { list.new ≡ list_after tables.now.links.now (tables_in tables.now) (ask (Ask.list (length list.old) request)) list.old }
{
    check_offer(tables.head, request)?;
    Ok(all_starts(tables, request, list))
}

// A booking without commitment or number. It writes no table.
pub fn offer(tables: &LentTables<'_>, request: Request) -> Result<Granted, Refused>
    requires { Fine tables.now.links.now (tables_in tables.now) }
    ensures { values result ≡ choice_answer tables.now.links.now (tables_in tables.now) (ask (Ask.offer request)) }
{
    check_offer(tables.head, request)?;
    best_start(tables, request)
}

// Books the earliest start of the request's window.
pub fn make_booking(desk: &mut Desk<'_>, number: u32, request: Request) -> Result<Granted, Refused>
    requires { Fine desk.old.links.now (tables_of desk.old) }
    ensures loans { SameLoans desk.old desk.new }
    ensures answer { values result ≡ choice_answer desk.old.links.now (tables_of desk.old) (ask (Ask.book number request)) }
    ensures tables { tables_of desk.new ≡ tables_after desk.old.links.now (tables_of desk.old) (ask (Ask.book number request)) }
{
    let tables = desk.tables();
    check_booking(&tables, number, request)?;
    let granted = best_start(&tables, request)?;
    enter(desk, number, request, granted.start, granted.path);
    Ok(granted)
}
