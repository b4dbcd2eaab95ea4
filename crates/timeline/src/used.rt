// The used events of a table, as they are lent for reading.

ghost use Rattle.std.specs.Prelude.{◌≡◌, ◌≤◌, ◌<◌, length};
ghost use Rattle.timeline.specs.EventTable.{Used, rising_part};

use units::Minute;

// The clock and the later events, each once, rising.
#[derive(Clone, Copy)]
pub struct UsedEvents<'a> {
    pub events: &'a [u32],
    pub ghost rising: { Used events.now },
}

impl UsedEvents<'_> {
    ghost use Rattle.std.specs.Prelude.{◌≡◌};
    ghost use Rattle.timeline.specs.Events.{row_at};

    // The row that holds in a minute, found by halving.
    pub fn row_at(self, minute: Minute) -> usize
        ensures { result ≡ row_at self.entry.events.now minute.0 }
    {
        let events = self.events;
        let mut row = 0;
        let mut left = events.len();
        while 1 < left {
            let half = left / 2;
            if events[row + half] <= minute.0 {
                row += half;
            }
            left -= half;
        }
        row
    }
}

// The events of a table that rise from its first on.
#[tactic(auto)]
pub fn rising(events: &[u32]) -> UsedEvents<'_>
    requires { 0 < length events.now }
    ensures part { result.events.now ≡ rising_part events.now }
    ensures inside { length result.events.now ≤ length events.now }
{
    let mut rows = 1;
    while rows < events.len() && events[rows - 1] < events[rows] {
        rows += 1;
    }
    UsedEvents {
        events: &events[..rows],
    }
}
