// The two records of document 01 read from bytes of any number. Nothing here knows a desk: whether a figure is in range for a
// booking is not asked.
#![tactic(auto)]

ghost use Rattle.std.specs.Prelude.{◌≡◌, ◌/◌, ◌%◌, ◌^◌, ◌<◌};
ghost use Rattle.layout.specs.Layout.{cut, order_widths, link_widths};
ghost use Rattle.layout.specs.Records.{order_fields, link_fields, order_read, link_read};

use layout::{LINK_BYTES, LinkFields, ORDER_BYTES, Order, OrderFields};
use units::{Link, Refusal};

// How many values a field of each width can hold.
pub const KINDS: u32 = 1 << 4;

pub const NUMBERS: u32 = 1 << 14;

pub const NODES: u32 = 1 << 5;

pub const BANDWIDTHS: u32 = 1 << 20;

pub const DURATIONS: u32 = 1 << 20;

pub const MINUTES: u32 = 1 << 30;

// The zero field of a link.
pub const ZEROS: u64 = 1 << 34;

// The field of a record that has so many bits behind it, and can hold so many values.
fn field(bits: u128, behind: u32, size: u32) -> u32
    requires behind { behind < 128 }
    requires some { 0 < size }
    ensures { result ≡ bits / 2 ^ behind % size }
{
    ((bits >> behind) % u128::from(size)) as u32
}

// The fields of an order whose bytes make this number.
#[tactic(auto, unfolding(layout::specs::Layout::cut, units::specs::Lists::sum))]
fn cut_order(bits: u128) -> OrderFields
    ensures { result ≡ order_fields (cut order_widths bits) }
{
    OrderFields {
        kind: field(bits, 124, KINDS),
        number: field(bits, 110, NUMBERS),
        from: field(bits, 105, NODES),
        to: field(bits, 100, NODES),
        bandwidth: field(bits, 80, BANDWIDTHS),
        duration: field(bits, 60, DURATIONS),
        earliest: field(bits, 30, MINUTES),
        latest: field(bits, 0, MINUTES),
    }
}

// The fields of a link whose bytes make this number.
#[tactic(auto, unfolding(layout::specs::Layout::cut, units::specs::Lists::sum))]
fn cut_link(bits: u64) -> LinkFields
    ensures { result ≡ link_fields (cut link_widths bits) }
{
    let whole = u128::from(bits);
    LinkFields {
        from: field(whole, 59, NODES),
        to: field(whole, 54, NODES),
        capacity: field(whole, 34, BANDWIDTHS),
        zero: bits % ZEROS,
    }
}

// What any bytes are read as: an order, or 12 for a wrong number of bytes, then 11.
#[tactic(auto, unfolding(layout::specs::Records::order_read))]
pub fn read_order(bytes: &[u8]) -> Result<Order, Refusal>
    ensures { result ≡ order_read bytes.now }
{
    let piece = bytes.as_array::<ORDER_BYTES>().ok_or(Refusal::BadLength)?;
    Order::try_from(cut_order(u128::from_be_bytes(*piece)))
}

// What any bytes are read as: a link, or 12 for a wrong number of bytes, then 11.
#[tactic(auto, unfolding(layout::specs::Records::link_read))]
pub fn read_link(bytes: &[u8]) -> Result<Link, Refusal>
    ensures { result ≡ link_read bytes.now }
{
    let piece = bytes.as_array::<LINK_BYTES>().ok_or(Refusal::BadLength)?;
    Link::try_from(cut_link(u64::from_be_bytes(*piece)))
}
