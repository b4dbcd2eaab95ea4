// An answer as the bytes of its line, exactly as document 01 prints it, written into a buffer that the caller lends. The
// program calls `write_line`; `report_c` exports it for the tests and a program in C. Nothing here knows a desk or decides an
// answer.
#![tactic(auto)]

ghost use Rattle.std.specs.Prelude.{◌≡◌, ◌++◌, ◌+◌, ◌≤◌, length};
ghost use Rattle.units.specs.Limits.{most_hops};
ghost use Rattle.report.specs.Decimal.{decimal};
ghost use Rattle.report.specs.Line.{numbers, route, answer, line, max_line, has_room};
ghost use Rattle.report.specs.Written.{Wrote, HasRoom, Writes};

use itoa::write_digits;
use units::{Minute, PATH_LINKS};

// The bytes of the longest line: a place of 20 digits, two figures and 31 links of 10, and the words of a booking.
pub const MAX_LINE: usize = 20 + 10 + 10 + PATH_LINKS * 11 + 22;

// What a line says. The order's place and the path stand beside it. A refusal stands as its number, since a program in
// another language hands any figure over.
#[derive(Clone, Copy)]
pub enum Report {
    DeskLinks(u32),
    DeskRefused(u32),
    Booked(u32, Minute),
    Offered(Minute),
    Cancelled(u32),
    Clock(Minute),
    Refused(u32),
    RefusedAt(u32, Minute),
}

// A line that is being written into a lent buffer, from index `at` on.
#[derive(Drop)]
struct LineWriter<'a> {
    out: &'a mut [u8],
    at: usize,
}

impl LineWriter<'_> {
    // Writes bytes as they are.
    fn write_bytes(&mut self, bytes: &[u8])
        requires { HasRoom bytes.now self.old }
        ensures { Writes bytes.now self.old self.new }
    {
        let end = self.at + bytes.len();
        self.out[self.at..end].copy_from_slice(bytes);
        self.at = end;
    }

    // Writes a number in decimal.
    fn write_decimal(&mut self, value: u64)
        requires { HasRoom (decimal value) self.old }
        ensures { Writes (decimal value) self.old self.new }
    {
        if value < 10 {
            self.write_bytes(&[b'0' + value as u8]);
            return;
        }
        let end = self.at + value.ilog10() as usize + 1;
        write_digits(value, self.out, end);
        self.at = end;
    }

    // Writes a word and the number behind it.
    fn write_field(&mut self, word: &[u8], value: u32)
        requires { HasRoom (word.now ++ decimal value) self.old }
        ensures { Writes (word.now ++ decimal value) self.old self.new }
    {
        self.write_bytes(word);
        self.write_decimal(value as u64);
    }

    // Writes link numbers in their order, a space before each.
    fn write_links(&mut self, links: &[u32])
        requires { HasRoom (numbers links.now) self.old }
        ensures { Writes (numbers links.now) self.old self.new }
    {
        for &link in links {
            self.write_field(b" ", link);
        }
    }

    // Writes a start minute and the link numbers of its path.
    #[tactic(auto, unfolding(crate::specs::Line::route))]
    fn write_route(&mut self, start: Minute, links: &[u32])
        requires { HasRoom (route start links.now) self.old }
        ensures { Writes (route start links.now) self.old self.new }
    {
        self.write_field(b" start ", start.0);
        self.write_bytes(b" links");
        self.write_links(links);
    }

    // Writes an order's place, a word and the number behind it.
    fn write_placed(&mut self, place: u64, word: &[u8], value: u32)
        requires { HasRoom (decimal place ++ (word.now ++ decimal value)) self.old }
        ensures { Writes (decimal place ++ (word.now ++ decimal value)) self.old self.new }
    {
        self.write_decimal(place);
        self.write_field(word, value);
    }

    // Writes a line without its end.
    #[tactic(auto, unfolding(crate::specs::Line::answer))]
    fn write_answer(&mut self, place: u64, report: Report, links: &[u32])
        requires { HasRoom (answer place report links.now) self.old }
        ensures { Writes (answer place report links.now) self.old self.new }
    {
        match report {
            Report::DeskLinks(count) => self.write_field(b"desk links ", count),
            Report::DeskRefused(refusal) => self.write_field(b"desk refused ", refusal),
            Report::Booked(number, start) => {
                self.write_placed(place, b" booked ", number);
                self.write_route(start, links);
            }
            Report::Offered(start) => {
                self.write_decimal(place);
                self.write_bytes(b" offer");
                self.write_route(start, links);
            }
            Report::Cancelled(number) => self.write_placed(place, b" cancelled ", number),
            Report::Clock(minute) => self.write_placed(place, b" clock ", minute.0),
            Report::Refused(refusal) => self.write_placed(place, b" refused ", refusal),
            Report::RefusedAt(refusal, minute) => {
                self.write_placed(place, b" refused ", refusal);
                self.write_field(b" at ", minute.0);
            }
        }
    }
}

// Writes a line from index `at` on and answers the index behind it. The path is lent as its links in travel order; a line
// that shows no path looks at none, and one of the desk itself at no place.
pub fn write_line(out: &mut [u8], at: usize, place: u64, report: Report, links: &[u32]) -> usize
    requires max_line_in_bounds { at + max_line ≤ length out.old }
    requires links_le_most_hops { length links.now ≤ most_hops }
    ensures wrote { Wrote (line place report links.now) out.old at out.new result }
    ensures upper_bound { result ≤ at + max_line }
{
    let mut writer = LineWriter { out, at };
    writer.write_answer(place, report, links);
    writer.write_bytes(b"\n");
    writer.at
}

// Whether `write_line` may be called: a buffer of `size` bytes has room for any line from index `at` on, and a path this many
// links.
pub fn has_room(size: usize, at: usize, links: usize) -> bool
    ensures { result ≡ has_room size at links }
{
    MAX_LINE <= size && at <= size - MAX_LINE && links <= PATH_LINKS
}
