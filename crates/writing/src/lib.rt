// How a form becomes bytes: which forms are refused, and the number of a record. Only `write_order` and `write_link` write.
#![tactic(auto)]

ghost use Rattle.std.specs.Prelude.{◌≡◌, true, ◌&&◌, ◌+◌, ◌*◌, ◌^◌, ◌<◌, length};
ghost use Rattle.units.specs.Refusals.{number_of};
ghost use Rattle.layout.specs.Layout.{pack, fits, order_widths, link_widths};
ghost use Rattle.layout.specs.Forms.{tellable, order_figures, form_fits, order_refusal, link_figures, link_refusal, order_written, link_written};

use layout::{LINK_BYTES, OPEN, ORDER_BYTES, Order, OrderFields, OrderForm};
use reading::{BANDWIDTHS, DURATIONS, KINDS, MINUTES, NODES, NUMBERS, ZEROS};
use units::{Link, Minute, Refusal};

// Whether a latest start can be told: a given minute of all ones cannot, since it would be read as open.
fn tellable(latest: Option<Minute>) -> bool
    ensures { result ≡ tellable latest }
{
    latest.is_none_or(|minute| minute.0 != OPEN)
}

// Whether no field of an order is too large for its width.
#[tactic(auto, unfolding(layout::specs::Layout::fits))]
fn order_fits(f: OrderFields) -> bool
    ensures { result ≡ fits order_widths (order_figures f) }
{
    f.kind < KINDS
        && f.number < NUMBERS
        && f.from < NODES
        && f.to < NODES
        && f.bandwidth < BANDWIDTHS
        && f.duration < DURATIONS
        && f.earliest < MINUTES
        && f.latest < MINUTES
}

// Whether no field of a link is too large for its width.
#[tactic(auto, unfolding(layout::specs::Layout::fits))]
fn link_fits(link: Link) -> bool
    ensures { result ≡ fits link_widths (link_figures link) }
{
    link.from < NODES && link.to < NODES && link.capacity.0 < BANDWIDTHS
}

// Whether the figures of a form have room in their fields, and its latest start can be told.
#[tactic(auto, unfolding(layout::specs::Forms::form_fits))]
fn form_fits(form: OrderForm) -> bool
    ensures { result ≡ form_fits form }
{
    order_fits(OrderFields::from(form)) && tellable(form.wish.latest)
}

// Refuses a form for a piece of so many bytes: 12 for a wrong number of them, 11 for a form that the reader would not take
// for an order, 4 for one that does not fit.
#[tactic(auto, unfolding(layout::specs::Forms::order_refusal))]
fn check_order(count: usize, form: OrderForm) -> Result<(), Refusal>
    ensures { number_of result ≡ order_refusal count form }
{
    if count != ORDER_BYTES {
        return Err(Refusal::BadLength);
    }
    Order::try_from(OrderFields::from(form))?;
    if !form_fits(form) {
        return Err(Refusal::BadField);
    }
    Ok(())
}

// Refuses a link for a piece of so many bytes: 12 for a wrong number of them, 4 for a figure that is too large.
#[tactic(auto, unfolding(layout::specs::Forms::link_refusal))]
fn check_link(count: usize, link: Link) -> Result<(), Refusal>
    ensures { number_of result ≡ link_refusal count link }
{
    if count != LINK_BYTES {
        return Err(Refusal::BadLength);
    }
    if !link_fits(link) {
        return Err(Refusal::BadField);
    }
    Ok(())
}

// A number with one more field behind it; `size` is how many values the field can hold.
fn push(bits: u128, size: u32, field: u32) -> u128
    requires { bits * size + field < 2 ^ 128 }
    ensures { result ≡ bits * size + field }
{
    bits * u128::from(size) + u128::from(field)
}

// The number of an order.
#[tactic(auto, using(layout::proofs::Refusals::roomy), unfolding(layout::specs::Layout::pack, units::specs::Lists::sum))]
fn pack_order(f: OrderFields) -> u128
    requires { fits order_widths (order_figures f) ≡ true }
    ensures { result ≡ pack order_widths (order_figures f) }
{
    let numbered = push(u128::from(f.kind), NUMBERS, f.number);
    let routed = push(push(numbered, NODES, f.from), NODES, f.to);
    let asked = push(push(routed, BANDWIDTHS, f.bandwidth), DURATIONS, f.duration);
    push(push(asked, MINUTES, f.earliest), MINUTES, f.latest)
}

// The number of a link; its last 34 bits are zero.
#[tactic(auto, using(layout::proofs::Refusals::roomy_link), unfolding(layout::specs::Layout::pack, units::specs::Lists::sum))]
fn pack_link(link: Link) -> u64
    requires { fits link_widths (link_figures link) ≡ true }
    ensures { result ≡ pack link_widths (link_figures link) }
{
    let routed = push(u128::from(link.from), NODES, link.to);
    push(routed, BANDWIDTHS, link.capacity.0) as u64 * ZEROS
}

// Writes an order over a piece of 16 bytes; or leaves the piece as it is and answers 12 for a wrong number of bytes, then 11
// for an unknown kind or a filled field that the kind does not use, then 4 for a figure too large for its field or a given
// latest start of all ones.
pub fn write_order(bytes: &mut [u8], form: OrderForm) -> Result<(), Refusal>
    ensures value { number_of result ≡ order_refusal (length bytes.old) form }
    ensures bytes_after { bytes.new ≡ order_written bytes.old form }
{
    check_order(bytes.len(), form)?;
    bytes.copy_from_slice(&pack_order(OrderFields::from(form)).to_be_bytes());
    Ok(())
}

// Writes a link over a piece of 8 bytes; or leaves the piece as it is and answers 12 for a wrong number of bytes, then 4 for
// a figure too large for its field.
pub fn write_link(bytes: &mut [u8], link: Link) -> Result<(), Refusal>
    ensures value { number_of result ≡ link_refusal (length bytes.old) link }
    ensures bytes_after { bytes.new ≡ link_written bytes.old link }
{
    check_link(bytes.len(), link)?;
    bytes.copy_from_slice(&pack_link(link).to_be_bytes());
    Ok(())
}
