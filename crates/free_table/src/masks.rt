// Which links have at least a bandwidth free in each row of a free table, as bits: looked at once for each row, however many spans
// hold in it.

ghost use Rattle.std.specs.Prelude.{◌≡◌, ◌∷◌, [], ◌≤◌, ◌<◌, ◌+◌, ◌^◌, ℕ, List, length, get_or, leb};
ghost use Rattle.units.specs.Limits.{most_links, most_events};
ghost use Rattle.units.specs.Search.{all_from};
ghost use Rattle.units.specs.Sets.{has};
ghost use Rattle.free_table.specs.Looking.{enough_span};
ghost use Rattle.free_table.specs.Masks.{Kept};

use crate::interval::Interval;
use crate::view::FreeTable;
use std::simd::prelude::*;
use units::{Bandwidth, EVENTS, ROW};

// The links that are looked at together.
const LANES: usize = 16;

// Which of these links, from one on, have at least the bandwidth in a row, as bits.
fn lanes(row: &[u32; ROW], from: usize, bandwidth: Bandwidth) -> u64
    requires { from + 16 ≤ most_links }
    ensures enough { (l : ℕ) → l < 16 → has result l ≡ leb bandwidth.0 (get_or row.now (from + l) 0) }
    ensures few { result < 2 ^ 16 }
{
    let figures = u32x16::from_slice(&row[from..]);
    u32x16::splat(bandwidth.0).simd_le(figures).to_bitmask()
}

// Which links have at least the bandwidth in a row, as bits.
pub fn row_mask(row: &[u32; ROW], bandwidth: Bandwidth) -> u64
    ensures { (l : ℕ) → l < most_links → has result l ≡ leb bandwidth.0 (get_or row.now l 0) }
{
    let first = lanes(row, 0, bandwidth);
    let second = lanes(row, LANES, bandwidth);
    let third = lanes(row, 2 * LANES, bandwidth);
    let fourth = lanes(row, 3 * LANES, bandwidth);
    first + (second << 16) + (third << 32) + (fourth << 48)
}

// Which links are in each of the masks.
fn in_all(masks: &[u64]) -> u64
    ensures { (l : ℕ) → l < most_links → has result l ≡ all_from 0 (length masks.now) (λ i. has (get_or masks.now i 0) l) }
{
    let mut all = u64::MAX;
    for &mask in masks {
        all &= mask;
    }
    all
}

// Which links have at least the bandwidth in each of the rows, whose masks are not kept.
fn in_rows(rows: &[[u32; ROW]], bandwidth: Bandwidth) -> u64
    ensures { (l : ℕ) → l < most_links → has result l ≡ all_from 0 (length rows.now) (λ i. leb bandwidth.0 (get_or (get_or rows.now i []) l 0)) }
{
    let mut all = u64::MAX;
    for row in rows {
        all &= row_mask(row, bandwidth);
    }
    all
}

// The masks of the rows first to past - 1, each at its row's place.
#[derive(Clone, Copy)]
pub struct Masks {
    pub first: usize,
    pub past: usize,
    pub rows: [u64; EVENTS],
}

// No masks.
pub fn no_masks() -> Masks
    ensures { (t : List ℕ) (bandwidth : ℕ) → Kept result t bandwidth }
{
    Masks {
        first: 0,
        past: 0,
        rows: [0; EVENTS],
    }
}

impl Masks {
    ghost use Rattle.std.specs.Prelude.{◌≤◌, ◌<◌, ◌*◌, ℕ, List, length};

    // Lets go of the masks where a row that comes before them or behind them is asked for.
    fn begin_at(&mut self, row: usize)
        requires { row ≤ most_events }
        ensures kept { (t : List ℕ) (bandwidth : ℕ) → Kept self.old t bandwidth → Kept self.new t bandwidth }
        ensures first { self.new.first ≤ row }
        ensures past { row ≤ self.new.past }
    {
        if row < self.first || self.past < row {
            self.first = row;
            self.past = row;
        }
    }

    // Makes the masks of the rows up to one that are not kept yet.
    fn go_on_to(&mut self, figures: &[u32], past: usize, bandwidth: Bandwidth)
        requires inside { past ≤ most_events }
        requires sized { past * most_links ≤ length figures.now }
        requires kept { Kept self.old figures.now bandwidth.0 }
        ensures kept { Kept self.new figures.now bandwidth.0 }
        ensures first { self.new.first ≡ self.old.first }
        ensures past { past ≤ self.new.past }
    {
        let (rows, _) = figures.as_chunks::<ROW>();
        for row in self.past..past {
            self.rows[row] = row_mask(&rows[row], bandwidth);
        }
        self.past = self.past.max(past);
    }

    // Which links have at least the bandwidth free in every minute of an interval. The masks are those of one table and bandwidth; a
    // table of more rows than a desk's has its rows looked at each time.
    pub fn throughout(&mut self, table: &FreeTable, minutes: Interval, bandwidth: Bandwidth) -> u64
        requires { Kept self.old table.now.figures.now bandwidth.0 }
        ensures kept { Kept self.new table.now.figures.now bandwidth.0 }
        ensures enough { (l : ℕ) → l < most_links → has result l ≡ enough_span table.now.events.now minutes.start.0 minutes.end.0 l bandwidth.0 table.now.figures.now }
    {
        let (first, rows) = table.rows(minutes);
        let past = first + rows.len();
        if EVENTS < past {
            return in_rows(rows, bandwidth);
        }
        self.begin_at(first);
        self.go_on_to(table.figures, past, bandwidth);
        in_all(&self.rows[first..past])
    }
}
