// The writer of a line for programs in another language, over `write_line` of `report`. It is called by the tests and a program
// in C, for every input.
#![tactic(auto)]

ghost use Rattle.std.specs.Prelude.{◌≡◌, length};
ghost use Rattle.report.specs.Line.{line, has_room, if_room};
ghost use Rattle.report.specs.Kinds.{report_of};
ghost use Rattle.report.specs.Written.{Wrote};

use report::{Report, has_room, write_line};
use units::Minute;

// The kinds of a line for a program in another language; any other number is a refused order with no minute beside it.
const DESK_LINKS: u32 = 0;

const DESK_REFUSED: u32 = 1;

const BOOKED: u32 = 2;

const OFFERED: u32 = 3;

const CANCELLED: u32 = 4;

const CLOCK: u32 = 5;

const REFUSED_AT: u32 = 7;

// The report of a kind with its figure and its minute; the figure is a count, a booking number or a refusal number.
#[tactic(auto, unfolding(report::specs::Kinds::report_of))]
fn report_of(kind: u32, figure: u32, minute: Minute) -> Report
    ensures { result ≡ report_of kind figure minute }
{
    match kind {
        DESK_LINKS => Report::DeskLinks(figure),
        DESK_REFUSED => Report::DeskRefused(figure),
        BOOKED => Report::Booked(figure, minute),
        OFFERED => Report::Offered(minute),
        CANCELLED => Report::Cancelled(figure),
        CLOCK => Report::Clock(minute),
        REFUSED_AT => Report::RefusedAt(figure, minute),
        _ => Report::Refused(figure),
    }
}

// Writes a line: the report by its kind, and the path as its links alone. Where there is no room for the longest line or the
// path is too long it writes nothing and answers `at`.
#[unsafe(no_mangle)]
pub extern "C" fn gcr_write_line(
    out: &mut [u8],
    at: usize,
    place: u64,
    kind: u32,
    figure: u32,
    minute: Minute,
    links: &[u32],
) -> usize
    ensures { Wrote (if_room (has_room (length out.old) at (length links.now)) (line place (report_of kind figure minute) links.now)) out.old at out.new result }
{
    if !has_room(out.len(), at, links.len()) {
        return at;
    }
    write_line(out, at, place, report_of(kind, figure, minute), links)
}
