// The two records of document 01 in the static library that C links: the station's C daemon calls `gcr_read_order` and
// `gcr_read_link`, a branch desk's program `gcr_write_order` and `gcr_write_link`. `include/gcr_record.h` declares them.
#![tactic(auto)]

ghost use Rattle.std.specs.Prelude.{◌≡◌, length};
ghost use Rattle.layout.specs.Records.{order_read, link_read};
ghost use Rattle.layout.specs.Forms.{latest_from, form_of, order_refusal, order_written, link_refusal, link_written};
ghost use Rattle.layout.specs.Values.{order_values, link_values};

use layout::{LinkRecord, OrderForm, OrderRecord, Wish};
use reading::{read_link, read_order};
use units::{Link, Minute, Request, refusal_number};
use writing::{write_link, write_order};

// Reads an order for C.
#[unsafe(no_mangle)]
pub extern "C" fn gcr_read_order(bytes: &[u8]) -> OrderRecord
    ensures { result ≡ order_values (order_read bytes.now) }
{
    OrderRecord::from(read_order(bytes))
}

// Reads a link for C.
#[unsafe(no_mangle)]
pub extern "C" fn gcr_read_link(bytes: &[u8]) -> LinkRecord
    ensures { result ≡ link_values (link_read bytes.now) }
{
    LinkRecord::from(read_link(bytes))
}

// The latest start that a minute and a flag say: open, whatever the minute, unless the flag is 0.
fn latest_from(minute: Minute, flag: u32) -> Option<Minute>
    ensures { result ≡ latest_from minute flag }
{
    (flag == 0).then_some(minute)
}

// The form that a program in another language fills.
fn form_of(kind: u32, number: u32, request: Request, flag: u32) -> OrderForm
    ensures { result ≡ form_of kind number request flag }
{
    OrderForm {
        kind,
        number,
        wish: Wish {
            from: request.from,
            to: request.to,
            bandwidth: request.bandwidth,
            duration: request.duration,
            earliest: request.earliest,
            latest: latest_from(request.latest, flag),
        },
    }
}

// Writes an order for C. A `latest_open` other than 0 is an open latest start, and the request's minute is not looked at.
#[unsafe(no_mangle)]
pub extern "C" fn gcr_write_order(
    bytes: &mut [u8],
    kind: u32,
    number: u32,
    request: Request,
    latest_open: u32,
) -> u32
    ensures value { result ≡ order_refusal (length bytes.old) (form_of kind number request latest_open) }
    ensures bytes_after { bytes.new ≡ order_written bytes.old (form_of kind number request latest_open) }
{
    refusal_number(write_order(bytes, form_of(kind, number, request, latest_open)))
}

// Writes a link for C.
#[unsafe(no_mangle)]
pub extern "C" fn gcr_write_link(bytes: &mut [u8], link: Link) -> u32
    ensures value { result ≡ link_refusal (length bytes.old) link }
    ensures bytes_after { bytes.new ≡ link_written bytes.old link }
{
    refusal_number(write_link(bytes, link))
}
