// A session: its first bytes to the desk's own line, then each order to its line, in whatever pieces the input comes. What an
// order is answered, and how its line reads, is in the crates `opening` and `orders`. Whatever has come whole is answered, and its lines
// are written, before more is read. `run_orders` calls `run_session` over standard input and output; nothing here knows a file or a pipe.
#![tactic(auto)]

ghost use Rattle.std.specs.Prelude.{◌≡◌, ◌⊎◌, ◌+◌, ◌/◌, ◌≤◌, ◌<◌, ◌^◌, [], ◌∷◌, ◌++◌, true, false, length, IfSome, IfOk, OnOk, OnErr};
ghost use Rattle.std.specs.Io.KnownBytes.{Appends};
ghost use Rattle.layout.specs.Layout.{order_bytes};
ghost use Rattle.rules.specs.Tables.{Fine, lent};
ghost use Rattle.lent.specs.Lent.{tables_of};
ghost use Rattle.orders.specs.Ordered.{line_of};
ghost use Rattle.report.specs.Line.{line};
ghost use Rattle.opening.specs.Opened.{desk_report};
ghost use Rattle.streams.specs.Reading.{kept};
ghost use Rattle.streams.specs.Writing.{AppendsFront, Moves, pending};
ghost use Rattle.session.specs.Session.{answered, behind, lines as lines_of, after, whole_orders, last_piece, orders, opened_lines, blank, session};
ghost use Rattle.session.specs.Streaming.{Goes, running, at_place, due, due_if, most_orders, Taken, Long, StopsAtStart};

use layout::{FIRST_BYTES, ORDER_BYTES};
use lent::Desk;
use opening::{open_desk, write_opened};
use orders::run_order;
use report::MAX_LINE;
use std::io;
use streams::reader::{Block, Input, read_start};
use streams::writer::{Lines, Output, write_whole};
use units::{
    BOOK_FIGURES, Bandwidth, Duration, EVENTS, FREE_FIGURES, Head, LINKS, Link, Minute, Refusal,
    TOTALS,
};

// The turns of the loop over the pieces of an input: no input has as many.
const MOST_TURNS: u64 = 1 << 51;

// Runs one order, whose line is written behind the others.
#[tactic(auto, using(crate::proofs::Fronts::front_more))]
fn run_one<W: Output>(
    output: &mut W,
    lines: &mut Lines,
    desk: &mut Desk<'_>,
    order: &[u8],
) -> io::Result<()>
    requires fine { Fine desk.old.links.now (tables_of desk.old) }
    requires within { lines.old.used ≤ length lines.old.bytes }
    requires counted { lines.old.place + 1 < 2 ^ 64 }
    requires intact { W.intact output.old ≡ true }
    ensures intact { OnOk result (W.intact output.new ≡ true) }
    ensures fine { Fine desk.new.links.now (tables_of desk.new) }
    ensures within { OnOk result (lines.new.used ≤ length lines.new.bytes) }
    ensures runs { OnOk result (running desk.new lines.new ≡ behind (running desk.old lines.old) order.now) }
    ensures moves { OnOk result (Moves (W.contents output.old) (W.contents output.new)
        (pending lines.old ++ line_of lines.old.place (answered (running desk.old lines.old) order.now)) (pending lines.new)) }
    ensures front { OnErr result (AppendsFront (W.contents output.old) (W.contents output.new)
        (pending lines.old ++ line_of lines.old.place (answered (running desk.old lines.old) order.now))) }
    ensures fails { OnErr result (W.failed output.new ≡ true) }
{
    lines.make_room(output)?;
    lines.used = run_order(order, desk, &mut lines.bytes, lines.used, lines.place);
    lines.place += 1;
    Ok(())
}

// Runs orders, whose lines are written behind the others.
fn run_orders<W: Output>(
    output: &mut W,
    lines: &mut Lines,
    desk: &mut Desk<'_>,
    orders: &[[u8; ORDER_BYTES]],
) -> io::Result<()>
    requires fine { Fine desk.old.links.now (tables_of desk.old) }
    requires within { lines.old.used ≤ length lines.old.bytes }
    requires counted { lines.old.place + length orders.now < 2 ^ 64 }
    requires intact { W.intact output.old ≡ true }
    ensures intact { OnOk result (W.intact output.new ≡ true) }
    ensures fine { Fine desk.new.links.now (tables_of desk.new) }
    ensures within { OnOk result (lines.new.used ≤ length lines.new.bytes) }
    ensures runs { OnOk result (running desk.new lines.new ≡ after (running desk.old lines.old) orders.now) }
    ensures counted { OnOk result (lines.new.place ≡ lines.old.place + length orders.now) }
    ensures moves { OnOk result (Moves (W.contents output.old) (W.contents output.new)
        (pending lines.old ++ lines_of (running desk.old lines.old) orders.now) (pending lines.new)) }
    ensures front { OnErr result (AppendsFront (W.contents output.old) (W.contents output.new)
        (pending lines.old ++ lines_of (running desk.old lines.old) orders.now)) }
    ensures fails { OnErr result (W.failed output.new ≡ true) }
{
    for order in orders {
        run_one(output, lines, desk, order)?;
    }
    Ok(())
}

// Runs the orders that are whole in these bytes and writes their lines out.
#[tactic(auto, using(crate::proofs::Fronts::moves_out, crate::proofs::Fronts::front_after))]
fn answer_whole<W: Output>(
    output: &mut W,
    lines: &mut Lines,
    desk: &mut Desk<'_>,
    bytes: &[u8],
) -> io::Result<()>
    requires fine { Fine desk.old.links.now (tables_of desk.old) }
    requires none { lines.old.used ≡ 0 }
    requires counted { lines.old.place + length bytes.now / order_bytes < 2 ^ 64 }
    requires intact { W.intact output.old ≡ true }
    ensures intact { OnOk result (W.intact output.new ≡ true) }
    ensures fine { Fine desk.new.links.now (tables_of desk.new) }
    ensures none { OnOk result (lines.new.used ≡ 0) }
    ensures runs { OnOk result (running desk.new lines.new ≡ after (running desk.old lines.old) (whole_orders bytes.now)) }
    ensures counted { OnOk result (lines.new.place ≡ lines.old.place + length bytes.now / order_bytes) }
    ensures written { OnOk result (Appends (W.contents output.old) (W.contents output.new) (lines_of (running desk.old lines.old) (whole_orders bytes.now))) }
    ensures front { OnErr result (AppendsFront (W.contents output.old) (W.contents output.new) (lines_of (running desk.old lines.old) (whole_orders bytes.now))) }
    ensures fails { OnErr result (W.failed output.new ≡ true) }
{
    let (orders, _) = bytes.as_chunks::<ORDER_BYTES>();
    run_orders(output, lines, desk, orders)?;
    lines.write_out(output)
}

// Runs a last piece, where there is one, and writes its line out.
fn answer_last<W: Output>(
    output: &mut W,
    lines: &mut Lines,
    desk: &mut Desk<'_>,
    piece: &[u8],
) -> io::Result<()>
    requires fine { Fine desk.old.links.now (tables_of desk.old) }
    requires none { lines.old.used ≡ 0 }
    requires counted { lines.old.place + 1 < 2 ^ 64 }
    requires intact { W.intact output.old ≡ true }
    ensures intact { OnOk result (W.intact output.new ≡ true) }
    ensures fine { Fine desk.new.links.now (tables_of desk.new) }
    ensures written { OnOk result (Appends (W.contents output.old) (W.contents output.new) (lines_of (running desk.old lines.old) (last_piece piece.now))) }
    ensures front { OnErr result (AppendsFront (W.contents output.old) (W.contents output.new) (lines_of (running desk.old lines.old) (last_piece piece.now))) }
    ensures fails { OnErr result (W.failed output.new ≡ true) }
{
    if piece.is_empty() {
        return Ok(());
    }
    run_one(output, lines, desk, piece)?;
    lines.write_out(output)
}

// Reads once, runs the orders that are whole by then and writes their lines. Whether the input goes on; where it ends the last
// piece is run.
fn answer_some<R: Input, W: Output>(
    input: &mut R,
    output: &mut W,
    block: &mut Block,
    lines: &mut Lines,
    desk: &mut Desk<'_>,
) -> io::Result<bool>
    requires fine { Fine desk.old.links.now (tables_of desk.old) }
    requires kept { block.old.kept < order_bytes }
    requires none { lines.old.used ≡ 0 }
    requires counted { lines.old.place + most_orders < 2 ^ 64 }
    requires intact { W.intact output.old ≡ true }
    ensures intact { OnOk result (W.intact output.new ≡ true) }
    ensures once { R.once input.old input.new ≡ true }
    ensures fine { Fine desk.new.links.now (tables_of desk.new) }
    ensures kept { OnOk result (block.new.kept < order_bytes) }
    ensures none { IfOk result (λ more. more ≡ true → lines.new.used ≡ 0) }
    ensures counted { IfOk result (λ more. more ≡ true → lines.new.place ≤ lines.old.place + most_orders) }
    ensures taken { IfOk result (λ more. more ≡ true → Taken 1 (R.remaining input.old) (R.remaining input.new)) }
    ensures goes { IfOk result (λ more. Goes (R.remaining input.old) (R.remaining input.new) (W.contents output.old) (W.contents output.new)
        (due (running desk.old lines.old) (kept block.old)) (due_if more (due (running desk.new lines.new) (kept block.new)))) }
    ensures front { OnErr result (IfSome (R.remaining input.old) (λ bytes. AppendsFront (W.contents output.old) (W.contents output.new)
        (due (running desk.old lines.old) (kept block.old) bytes))) }
    ensures fails { OnErr result ((R.failed input.new ≡ true) ⊎ (W.failed output.new ≡ true)) }
{
    let size = block.read_more(input)?;
    if size == block.kept {
        answer_last(output, lines, desk, &block.bytes[..size])?;
        return Ok(false);
    }
    answer_whole(output, lines, desk, &block.bytes[..size])?;
    block.keep(size);
    Ok(true)
}

// Runs all orders of an input. Whether it ended: a proved loop has to end, and nothing says that an input does, so the turns end at
// a number of pieces in which no input comes.
fn run_all<R: Input, W: Output>(
    input: &mut R,
    output: &mut W,
    desk: &mut Desk<'_>,
) -> io::Result<bool>
    requires fine { Fine desk.old.links.now (tables_of desk.old) }
    requires intact { W.intact output.old ≡ true }
    ensures intact { OnOk result (W.intact output.new ≡ true) }
    ensures long { IfOk result (λ ended. ended ≡ false → Long (R.remaining input.old)) }
    ensures whole { IfOk result (λ ended. ended ≡ true → IfSome (R.remaining input.old) (λ bytes. Appends (W.contents output.old) (W.contents output.new) (lines_of (at_place desk.old 1) (orders bytes)))) }
    ensures front { IfSome (R.remaining input.old) (λ bytes. AppendsFront (W.contents output.old) (W.contents output.new) (lines_of (at_place desk.old 1) (orders bytes))) }
    ensures fails { OnErr result ((R.failed input.new ≡ true) ⊎ (W.failed output.new ≡ true)) }
{
    let mut block = Block::new();
    let mut lines = Lines::new();
    for _ in 0..MOST_TURNS {
        if !answer_some(input, output, &mut block, &mut lines, desk)? {
            return Ok(true);
        }
    }
    Ok(false)
}

// Writes the desk's own line.
fn write_start<W: Output>(output: &mut W, opened: Result<u32, Refusal>) -> io::Result<()>
    requires intact { W.intact output.old ≡ true }
    ensures intact { OnOk result (W.intact output.new ≡ true) }
    ensures whole { OnOk result (Appends (W.contents output.old) (W.contents output.new) (line 0 (desk_report opened) [])) }
    ensures front { AppendsFront (W.contents output.old) (W.contents output.new) (line 0 (desk_report opened) []) }
    ensures fails { OnErr result (W.failed output.new ≡ true) }
{
    let mut line = [0u8; MAX_LINE];
    let used = write_opened(&mut line, opened);
    write_whole(output, &line[..used])
}

// Writes the line of a desk that was opened, and runs all orders.
fn run_opened<R: Input, W: Output>(
    input: &mut R,
    output: &mut W,
    desk: &mut Desk<'_>,
) -> io::Result<bool>
    requires fine { Fine desk.old.links.now (tables_of desk.old) }
    requires intact { W.intact output.old ≡ true }
    ensures intact { OnOk result (W.intact output.new ≡ true) }
    ensures long { IfOk result (λ ended. ended ≡ false → Long (R.remaining input.old)) }
    ensures whole { IfOk result (λ ended. ended ≡ true → IfSome (R.remaining input.old) (λ bytes. Appends (W.contents output.old) (W.contents output.new) (opened_lines (at_place desk.old 1) bytes))) }
    ensures front { IfSome (R.remaining input.old) (λ bytes. AppendsFront (W.contents output.old) (W.contents output.new) (opened_lines (at_place desk.old 1) bytes)) }
    ensures fails { OnErr result ((R.failed input.new ≡ true) ⊎ (W.failed output.new ≡ true)) }
{
    write_start(output, Ok(desk.head.links))?;
    run_all(input, output, desk)
}

// Runs a session on blank tables and places of links.
fn run_on<R: Input, W: Output>(
    input: &mut R,
    output: &mut W,
    places: &mut [Link; LINKS],
    head: &mut Head,
    events: &mut [u32],
    free: &mut [u32],
    book: &mut [u32],
    totals: &mut [u64],
) -> io::Result<bool>
    requires blank { lent head.old events.old free.old book.old totals.old ≡ blank }
    requires intact { W.intact output.old ≡ true }
    ensures intact { OnOk result (W.intact output.new ≡ true) }
    ensures long { IfOk result (λ ended. ended ≡ false → Long (R.remaining input.old)) }
    ensures stops { OnOk result (StopsAtStart (R.remaining input.old) (R.remaining input.new)) }
    ensures whole { IfOk result (λ ended. ended ≡ true → IfSome (R.remaining input.old) (λ bytes. Appends (W.contents output.old) (W.contents output.new) (session bytes))) }
    ensures front { IfSome (R.remaining input.old) (λ bytes. AppendsFront (W.contents output.old) (W.contents output.new) (session bytes)) }
    ensures fails { OnErr result ((R.failed input.new ≡ true) ⊎ (W.failed output.new ≡ true)) }
{
    let mut first = [0u8; FIRST_BYTES];
    let size = read_start(input, &mut first)?;
    match open_desk(&first[..size], places, head, events, free, book, totals) {
        Err(refusal) => {
            write_start(output, Err(refusal))?;
            Ok(true)
        }
        Ok(links) => {
            let mut desk = Desk {
                head,
                links,
                events,
                free,
                book,
                totals,
            };
            run_opened(input, output, &mut desk)
        }
    }
}

// Runs a session: reads it from the input and writes its whole output, and answers whether it ended; only an input of 2^51 bytes
// does not. Where a read or a write fails, some of the output is written, from the first byte on.
#[tactic(auto, unfolding(crate::specs::Session::blank))]
pub fn run_session<R: Input, W: Output>(input: &mut R, output: &mut W) -> io::Result<bool>
    requires intact { W.intact output.old ≡ true }
    ensures intact { OnOk result (W.intact output.new ≡ true) }
    ensures long { IfOk result (λ ended. ended ≡ false → Long (R.remaining input.old)) }
    ensures stops { OnOk result (StopsAtStart (R.remaining input.old) (R.remaining input.new)) }
    ensures whole { IfOk result (λ ended. ended ≡ true → IfSome (R.remaining input.old) (λ bytes. Appends (W.contents output.old) (W.contents output.new) (session bytes))) }
    ensures front { IfSome (R.remaining input.old) (λ bytes. AppendsFront (W.contents output.old) (W.contents output.new) (session bytes)) }
    ensures fails { OnErr result ((R.failed input.new ≡ true) ⊎ (W.failed output.new ≡ true)) }
{
    let mut head = Head {
        clock: Minute(0),
        links: 0,
        bookings: 0,
        guard: Duration(0),
    };
    let mut places = [Link {
        from: 0,
        to: 0,
        capacity: Bandwidth(0),
    }; LINKS];
    let mut events = [0u32; EVENTS];
    let mut free = [0u32; FREE_FIGURES];
    let mut book = [0u32; BOOK_FIGURES];
    let mut totals = [0u64; TOTALS];
    run_on(
        input,
        output,
        &mut places,
        &mut head,
        &mut events,
        &mut free,
        &mut book,
        &mut totals,
    )
}
