// A desk as its owner lends it to a call: its links for reading, and its tables for reading or to be written. Every call
// takes one of the two; nothing here looks at a figure.
#![tactic(auto)]

ghost use Rattle.std.specs.Prelude.{◌≡◌};
ghost use Rattle.free_table.specs.Looking.{TablesSized};
ghost use Rattle.lent.specs.Lent.{tables_of, tables_in};

use free_table::FreeTable;
use units::{Head, Link};

// Links and tables, lent for reading.
#[derive(Clone, Copy)]
pub struct LentTables<'a> {
    pub head: Head,
    pub links: &'a [Link],
    pub events: &'a [u32],
    pub free: &'a [u32],
    pub book: &'a [u32],
    pub totals: &'a [u64],
}

// Links lent for reading, and tables lent to be written.
#[derive(Drop)]
pub struct Desk<'a> {
    pub head: &'a mut Head,
    pub links: &'a [Link],
    pub events: &'a mut [u32],
    pub free: &'a mut [u32],
    pub book: &'a mut [u32],
    pub totals: &'a mut [u64],
}

impl<'a> LentTables<'a> {
    // The events and the free figures.
    pub fn free_table(&self) -> FreeTable<'a>
        requires { TablesSized self.now.events.now self.now.free.now }
        ensures events { result.events.now ≡ self.now.events.now }
        ensures figures { result.figures.now ≡ self.now.free.now }
    {
        FreeTable {
            events: self.events,
            figures: self.free,
        }
    }
}

impl Desk<'_> {
    // The same, for reading.
    pub fn tables(&self) -> LentTables<'_>
        ensures links { result.links.now ≡ self.now.links.now }
        ensures tables { tables_in result ≡ tables_of self.now }
    {
        LentTables {
            head: *self.head,
            links: self.links,
            events: self.events,
            free: self.free,
            book: self.book,
            totals: self.totals,
        }
    }
}
