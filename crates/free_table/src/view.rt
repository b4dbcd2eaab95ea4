// An event table and the free figures beside it, as they are lent for reading.

ghost use Rattle.free_table.specs.Looking.{TablesSized};

use crate::interval::Interval;
use crate::missing::Missing;
use timeline::row_at;
use units::{Bandwidth, LinkNumber, Minute, ROW};

// The events and the free figures, with a row of figures for each place of the events.
#[derive(Clone, Copy)]
pub struct FreeTable<'a> {
    pub events: &'a [u32],
    pub figures: &'a [u32],
    pub ghost sized: { TablesSized events.now figures.now },
}

impl FreeTable<'_> {
    ghost use Rattle.std.specs.Prelude.{◌≡◌, ◌+◌, ◌≤◌, ◌<◌, length};
    ghost use Rattle.units.specs.Limits.{most_links};
    ghost use Rattle.timeline.specs.Events.{row_at};
    ghost use Rattle.free_table.specs.Figures.{kept};
    ghost use Rattle.free_table.specs.Looking.{span_rows, row_minute, first_missing, missing_of};

    // The bandwidth that a link has free in a minute.
    #[tactic(auto, using(timeline::proofs::Rows::row_inside))]
    pub fn figure(&self, link: LinkNumber, minute: Minute) -> Bandwidth
        requires { link.0 < most_links }
        ensures { result.0 ≡ kept self.now.events.now self.now.figures.now link.0 minute.0 }
    {
        let row = row_at(self.events, minute);
        Bandwidth(self.figures[row * ROW + link.0 as usize])
    }

    // The row that holds at the start of an interval, and the rows from it on that hold in the interval's minutes.
    #[tactic(auto, using(timeline::proofs::Rows::row_inside, timeline::proofs::Rows::row_later))]
    pub fn rows(&self, minutes: Interval) -> (usize, &[[u32; ROW]])
        ensures first { result.0 ≡ row_at self.now.events.now minutes.start.0 }
        ensures rows { result.1.now ≡ span_rows self.now.events.now minutes.start.0 minutes.end.0 self.now.figures.now }
        ensures inside { result.0 + length result.1.now ≤ length self.now.events.now }
    {
        let first = row_at(self.events, minutes.start);
        let last = row_at(self.events, Minute(minutes.end.0 - 1));
        let (rows, _) = self.figures.as_chunks::<ROW>();
        (first, &rows[first..=last])
    }

    // The first minute from a start on in a row, counted from the row `first` that holds at the start.
    pub fn row_minute(&self, start: Minute, first: usize, row: usize) -> Minute
        requires first { first ≡ row_at self.now.events.now start.0 }
        requires inside { first + row < length self.now.events.now }
        ensures { result.0 ≡ row_minute self.now.events.now start.0 row }
    {
        if row == 0 {
            return start;
        }
        Minute(self.events[first + row])
    }

    // The first minute of an interval at which one link has less than the bandwidth free, or that there is none.
    pub fn first_missing(
        &self,
        minutes: Interval,
        link: LinkNumber,
        bandwidth: Bandwidth,
    ) -> Missing
        requires { link.0 < most_links }
        ensures { result ≡ missing_of (first_missing self.now.events.now minutes.start.0 minutes.end.0 link.0 bandwidth.0 self.now.figures.now) }
    {
        let column = link.0 as usize;
        let (first, rows) = self.rows(minutes);
        match rows.iter().position(|row| row[column] < bandwidth.0) {
            Some(row) => Missing::At(self.row_minute(minutes.start, first, row)),
            None => Missing::Nowhere,
        }
    }
}
