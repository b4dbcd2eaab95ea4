// Bandwidth on each link of a path over an interval. The interval's rows are looked up once.

ghost use Rattle.std.specs.Prelude.{◌≡◌, ◌*◌, ◌≤◌, ◌<◌, length};
ghost use Rattle.units.specs.Limits.{most_links};
ghost use Rattle.free_table.specs.Spans.{given, taken, change_rows, change_path, change_span, Columns, SpanSized};

use crate::interval::Interval;
use timeline::row_at;
use units::{Bandwidth, LinkNumber, ROW};

// Gives bandwidth back to one link in the first rows of the part.
#[tactic(auto, using(crate::proofs::Changed::change_rows_none, crate::proofs::Changed::change_rows_next))]
fn give_rows(part: &mut [u32], rows: usize, link: LinkNumber, bandwidth: Bandwidth)
    requires column { link.0 < most_links }
    requires inside { rows * most_links ≤ length part.old }
    ensures { part.new ≡ change_rows (given bandwidth.0) rows link.0 part.old }
{
    let column = link.0 as usize;
    for row in 0..rows {
        let at = row * ROW + column;
        part[at] = part[at].wrapping_add(bandwidth.0);
    }
}

// The same to each link of a path.
#[tactic(auto, using(crate::proofs::Changed::path_next, crate::proofs::Changed::path_done))]
fn give_path(part: &mut [u32], rows: usize, path: &[u32], bandwidth: Bandwidth)
    requires columns { Columns path.now }
    requires inside { rows * most_links ≤ length part.old }
    ensures { part.new ≡ change_path (given bandwidth.0) rows path.now part.old }
{
    for &link in path {
        give_rows(part, rows, LinkNumber(link), bandwidth);
    }
}

// Gives bandwidth back to each link of a path in every minute of an interval, whose start and end are events or not later than
// the clock.
#[tactic(auto, using(timeline::proofs::Rows::row_inside, timeline::proofs::Rows::row_later))]
pub fn give_span(
    events: &[u32],
    free: &mut [u32],
    minutes: Interval,
    path: &[u32],
    bandwidth: Bandwidth,
)
    requires sized { SpanSized events.now free.old path.now }
    ensures { free.new ≡ change_span (given bandwidth.0) events.now minutes.start.0 minutes.end.0 path.now free.old }
{
    let first = row_at(events, minutes.start);
    let past = row_at(events, minutes.end);
    give_path(&mut free[first * ROW..], past - first, path, bandwidth);
}

// Takes bandwidth from one link in the first rows of the part; a figure that is too small becomes zero.
#[tactic(auto, using(crate::proofs::Changed::change_rows_none, crate::proofs::Changed::change_rows_next))]
fn take_rows(part: &mut [u32], rows: usize, link: LinkNumber, bandwidth: Bandwidth)
    requires column { link.0 < most_links }
    requires inside { rows * most_links ≤ length part.old }
    ensures { part.new ≡ change_rows (taken bandwidth.0) rows link.0 part.old }
{
    let column = link.0 as usize;
    for row in 0..rows {
        let at = row * ROW + column;
        part[at] = part[at].saturating_sub(bandwidth.0);
    }
}

// The same from each link of a path.
#[tactic(auto, using(crate::proofs::Changed::path_next, crate::proofs::Changed::path_done))]
fn take_path(part: &mut [u32], rows: usize, path: &[u32], bandwidth: Bandwidth)
    requires columns { Columns path.now }
    requires inside { rows * most_links ≤ length part.old }
    ensures { part.new ≡ change_path (taken bandwidth.0) rows path.now part.old }
{
    for &link in path {
        take_rows(part, rows, LinkNumber(link), bandwidth);
    }
}

// Takes bandwidth from each link of a path in every minute of an interval, whose start and end are events or not later than the
// clock.
#[tactic(auto, using(timeline::proofs::Rows::row_inside, timeline::proofs::Rows::row_later))]
pub fn take_span(
    events: &[u32],
    free: &mut [u32],
    minutes: Interval,
    path: &[u32],
    bandwidth: Bandwidth,
)
    requires sized { SpanSized events.now free.old path.now }
    ensures { free.new ≡ change_span (taken bandwidth.0) events.now minutes.start.0 minutes.end.0 path.now free.old }
{
    let first = row_at(events, minutes.start);
    let past = row_at(events, minutes.end);
    take_path(&mut free[first * ROW..], past - first, path, bandwidth);
}
