// One order's bytes and a desk to the order's answer and its line. The crate `session` calls `run_order`, and
// decides nothing itself. The tables are sound, and stay so, hence no order checks them. Every input is answered; an order that
// is refused changes nothing.
#![tactic(auto)]

ghost use Rattle.std.specs.Prelude.{◌≡◌, ◌+◌, ◌≤◌, length, Err};
ghost use Rattle.rules.specs.Tables.{Fine};
ghost use Rattle.lent.specs.Lent.{SameLoans, tables_of};
ghost use Rattle.report.specs.Line.{max_line};
ghost use Rattle.report.specs.Written.{Wrote};
ghost use Rattle.orders.specs.Ordered.{told, ordered, line_of};

use layout::Order;
use lent::Desk;
use path_search::{Path, no_path};
use reading::read_order;
use report::{Report, write_line};
use sound_calls::{cancel, make_booking, move_clock, offer};
use units::{Refusal, Refused, Request};

// The answer to an order: what its line says, and the path beside it.
#[derive(Clone, Copy)]
pub struct Answered {
    pub report: Report,
    pub path: Path,
}

// What a refused order is answered.
impl From<Refused> for Answered {
    ghost from_gives = { λ refused answered. answered ≡ told (Err refused) };

    fn from(refused: Refused) -> Answered {
        let number = u32::from(refused.refusal);
        let report = match refused.refusal {
            Refusal::NoStart => Report::RefusedAt(number, refused.at),
            _ => Report::Refused(number),
        };
        Answered {
            report,
            path: no_path(),
        }
    }
}

// What the order that the bytes hold is answered, or why it is refused: 12 and 11 where they cannot be read.
#[tactic(auto, unfolding(crate::specs::Ordered::ordered, crate::specs::Ordered::answered, sound_calls::specs::Lent::tables_after, sound_calls::specs::Lent::refusal_answer, sound_calls::specs::Lent::choice_answer, histories::specs::Kinds::outcome), using(crate::proofs::Minutes::cancel_without, crate::proofs::Minutes::clock_without))]
fn carry_out(bytes: &[u8], desk: &mut Desk<'_>) -> Result<Answered, Refused>
    requires fine { Fine desk.old.links.now (tables_of desk.old) }
    ensures loans { SameLoans desk.old desk.new }
    ensures answer { told result ≡ (ordered desk.old.links.now (tables_of desk.old) bytes.now).answer }
    ensures tables { tables_of desk.new ≡ (ordered desk.old.links.now (tables_of desk.old) bytes.now).tables }
{
    match read_order(bytes)? {
        Order::Book(number, wish) => {
            let granted = make_booking(desk, number, Request::from(wish))?;
            Ok(Answered {
                report: Report::Booked(number, granted.start),
                path: granted.path,
            })
        }
        Order::Cancel(number) => {
            cancel(desk, number)?;
            Ok(Answered {
                report: Report::Cancelled(number),
                path: no_path(),
            })
        }
        Order::Clock(minute) => {
            move_clock(desk, minute)?;
            Ok(Answered {
                report: Report::Clock(minute),
                path: no_path(),
            })
        }
        Order::Offer(wish) => {
            let granted = offer(&desk.tables(), Request::from(wish))?;
            Ok(Answered {
                report: Report::Offered(granted.start),
                path: granted.path,
            })
        }
    }
}

// Answers any bytes as an order: 12 and 11 where they cannot be read, else what the call that the order names answers.
pub fn answer_order(bytes: &[u8], desk: &mut Desk<'_>) -> Answered
    requires fine { Fine desk.old.links.now (tables_of desk.old) }
    ensures loans { SameLoans desk.old desk.new }
    ensures fine { Fine desk.new.links.now (tables_of desk.new) }
    ensures answer { result ≡ (ordered desk.old.links.now (tables_of desk.old) bytes.now).answer }
    ensures tables { tables_of desk.new ≡ (ordered desk.old.links.now (tables_of desk.old) bytes.now).tables }
{
    carry_out(bytes, desk).unwrap_or_else(Answered::from)
}

// Answers any bytes as an order and writes its line from index `at` on; answers the index behind the line.
#[tactic(auto, using(crate::proofs::Short::ordered_short))]
pub fn run_order(bytes: &[u8], desk: &mut Desk<'_>, out: &mut [u8], at: usize, place: u64) -> usize
    requires fine { Fine desk.old.links.now (tables_of desk.old) }
    requires max_line_in_bounds { at + max_line ≤ length out.old }
    ensures loans { SameLoans desk.old desk.new }
    ensures fine { Fine desk.new.links.now (tables_of desk.new) }
    ensures wrote { Wrote (line_of place (ordered desk.old.links.now (tables_of desk.old) bytes.now)) out.old at out.new result }
    ensures tables { tables_of desk.new ≡ (ordered desk.old.links.now (tables_of desk.old) bytes.now).tables }
    ensures next_bound { result ≤ at + max_line }
{
    let answer = answer_order(bytes, desk);
    let count = answer.path.count as usize;
    write_line(out, at, place, answer.report, &answer.path.links[..count])
}
