// The first bytes of a session to its desk and the desk's own line. The crate `session` calls `open_desk`, and decides
// nothing itself. Every input is answered.
#![tactic(auto)]

ghost use Rattle.std.specs.Prelude.{◌≡◌, [], ◌+◌, ◌*◌, ◌≤◌, length, IfOk};
ghost use Rattle.units.specs.Refusals.{number_of};
ghost use Rattle.layout.specs.Layout.{lead_bytes, link_bytes};
ghost use Rattle.rules.specs.Tables.{lent, Fine};
ghost use Rattle.report.specs.Line.{line, max_line};
ghost use Rattle.report.specs.Written.{Wrote};
ghost use Rattle.opening.specs.Opened.{links_refusal, links_in, first_byte, rest_size, bytes_refusal, opened, desk_report};

use desk_core::set_up;
use layout::{COUNT_BYTES, GUARD_BYTES, LEAD_BYTES, LINK_BYTES};
use lent::Desk;
use reading::read_link;
use report::{Report, write_line};
use units::{Duration, Head, LINKS, Link, Refusal};

// Reads a link record for each place in turn, up to the first that cannot be read.
fn read_links(bytes: &[u8], links: &mut [Link]) -> Result<(), Refusal>
    requires { lead_bytes + length links.old * link_bytes ≤ length bytes.now }
    ensures refusal { number_of result ≡ links_refusal bytes.now (length links.old) }
    ensures links { IfOk result (λ _. links.new ≡ links_in bytes.now (length links.old)) }
{
    let (records, _) = bytes[LEAD_BYTES..].as_chunks::<LINK_BYTES>();
    for (i, record) in records[..links.len()].iter().enumerate() {
        links[i] = read_link(record)?;
    }
    Ok(())
}

// How many bytes a first byte has behind it before the orders, the guard and the link records; none where its count is out of
// range.
pub fn rest_size(count: u8) -> Option<usize>
    ensures { result ≡ rest_size count }
{
    let count = usize::from(count);
    if !(1..=LINKS).contains(&count) {
        return None;
    }
    Some(GUARD_BYTES + count * LINK_BYTES)
}

// The links of a session's first bytes: 12 without a first byte, 1 for its range, 12 for too few bytes, with or without a guard, 11
// for a record.
#[tactic(auto, unfolding(crate::specs::Opened::bytes_refusal))]
fn session_links<'a>(bytes: &[u8], places: &'a mut [Link; LINKS]) -> Result<&'a [Link], Refusal>
    ensures refusal { number_of result ≡ bytes_refusal bytes.now }
    ensures enough { IfOk result (λ _. lead_bytes ≤ length bytes.now) }
    ensures links { IfOk result (λ links. links.now ≡ links_in bytes.now (first_byte bytes.now)) }
{
    let Some(&first) = bytes.first() else {
        return Err(Refusal::BadLength);
    };
    let Some(size) = rest_size(first) else {
        return Err(Refusal::BadSize);
    };
    if bytes.len() < COUNT_BYTES + size {
        return Err(Refusal::BadLength);
    }
    let links = &mut places[..usize::from(first)];
    read_links(bytes, links)?;
    Ok(links)
}

// Opens a desk from the first bytes of a session and answers its links, which stand in the lent places: the refusals of the
// bytes, then those of set-up.
#[tactic(auto, unfolding(crate::specs::Opened::opened, sound_calls::specs::Lent::refusal_answer, sound_calls::specs::Lent::tables_after))]
pub fn open_desk<'a>(
    bytes: &[u8],
    places: &'a mut [Link; LINKS],
    head: &mut Head,
    events: &mut [u32],
    free: &mut [u32],
    book: &mut [u32],
    totals: &mut [u64],
) -> Result<&'a [Link], Refusal>
    ensures refusal { number_of result ≡ (opened (lent head.old events.old free.old book.old totals.old) bytes.now).answer.refusal }
    ensures links { IfOk result (λ links. links.now ≡ (opened (lent head.old events.old free.old book.old totals.old) bytes.now).answer.links) }
    ensures fine { IfOk result (λ links. Fine links.now (lent head.new events.new free.new book.new totals.new)) }
    ensures tables { lent head.new events.new free.new book.new totals.new ≡ (opened (lent head.old events.old free.old book.old totals.old) bytes.now).tables }
{
    let links = session_links(bytes, places)?;
    let guard = Duration(u32::from(bytes[COUNT_BYTES]));
    let mut desk = Desk {
        head,
        links,
        events,
        free,
        book,
        totals,
    };
    set_up(&mut desk, guard)?;
    Ok(links)
}

// What the desk's own line says of the count of its links, or of its refusal.
fn desk_report(opened: Result<u32, Refusal>) -> Report
    ensures { result ≡ desk_report opened }
{
    match opened {
        Ok(links) => Report::DeskLinks(links),
        Err(refusal) => Report::DeskRefused(u32::from(refusal)),
    }
}

// Writes the desk's own line at the start of a buffer.
pub fn write_opened(out: &mut [u8], opened: Result<u32, Refusal>) -> usize
    requires { max_line ≤ length out.old }
    ensures wrote { Wrote (line 0 (desk_report opened) []) out.old 0 out.new result }
    ensures upper_bound { result ≤ max_line }
{
    write_line(out, 0, 0, desk_report(opened), &[])
}
