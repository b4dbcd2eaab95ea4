// The two records of document 01 as types, with their definitions (specs) and the theorems about these (proofs): a link of
// 64 bits and an order of 128, what any bytes are read as, and what a form is written as. The functions here are the conversions
// between these types: of fields, orders, forms and requests, and of what was read into a record for C.
#![tactic(auto)]

ghost use Rattle.std.specs.Prelude.{◌≡◌, ◌==◌};
ghost use Rattle.std.specs.List.{list_all};
ghost use Rattle.layout.specs.Records.{if_passed, kind_of, wish_of, order_from, link_from};
ghost use Rattle.layout.specs.Forms.{form_fields};
ghost use Rattle.layout.specs.Values.{kind_number, request_of, request_values, plain_values, order_values, link_values};

use units::{Bandwidth, Duration, Link, MAX_MINUTE, Minute, Refusal, Request};

// The bytes of an order, of a link, of a session's count of links, of its guard, of both, which stand before the links, and of these
// with the most links that a first byte counts.
pub const ORDER_BYTES: usize = 16;

pub const LINK_BYTES: usize = 8;

pub const COUNT_BYTES: usize = 1;

pub const GUARD_BYTES: usize = 1;

pub const LEAD_BYTES: usize = COUNT_BYTES + GUARD_BYTES;

pub const FIRST_BYTES: usize = LEAD_BYTES + 255 * LINK_BYTES;

// A latest start of all ones is open.
pub const OPEN: u32 = 1073741823;

// The kinds of an order, by their numbers.
#[derive(Clone, Copy, Debug, PartialEq, Eq)]
pub enum OrderKind {
    Book = 1,
    Cancel = 2,
    Clock = 3,
    Offer = 4,
}

impl TryFrom<u32> for OrderKind {
    type Error = Refusal;

    ghost try_from_gives = { λ number read. read ≡ kind_of number };

    fn try_from(number: u32) -> Result<OrderKind, Refusal> {
        match number {
            1 => Ok(OrderKind::Book),
            2 => Ok(OrderKind::Cancel),
            3 => Ok(OrderKind::Clock),
            4 => Ok(OrderKind::Offer),
            _ => Err(Refusal::BadBits),
        }
    }
}

impl From<OrderKind> for u32 {
    ghost from_gives = { λ kind figure. figure ≡ kind_number kind };

    fn from(kind: OrderKind) -> u32 {
        kind as u32
    }
}

// A request as an order holds it, with its latest start given, or open where there is none.
#[derive(Clone, Copy)]
pub struct Wish {
    pub from: u32,
    pub to: u32,
    pub bandwidth: Bandwidth,
    pub duration: Duration,
    pub earliest: Minute,
    pub latest: Option<Minute>,
}

// The request of a booking or an offer, its latest start a minute; that of an open one is the last.
impl From<Wish> for Request {
    ghost from_gives = { λ wish request. request ≡ request_of wish };

    fn from(wish: Wish) -> Request {
        Request {
            from: wish.from,
            to: wish.to,
            bandwidth: wish.bandwidth,
            duration: wish.duration,
            earliest: wish.earliest,
            latest: wish.latest.unwrap_or(Minute(MAX_MINUTE)),
        }
    }
}

// An order by its kind. A number is that of a booking.
#[derive(Clone, Copy)]
pub enum Order {
    Book(u32, Wish),
    Cancel(u32),
    Clock(Minute),
    Offer(Wish),
}

// An order as a form that is to be written: a kind by its number, and every field, also those that the kind does not use.
#[derive(Clone, Copy)]
pub struct OrderForm {
    pub kind: u32,
    pub number: u32,
    pub wish: Wish,
}

// The eight fields of an order, as cut from its bits.
#[derive(Clone, Copy)]
pub struct OrderFields {
    pub kind: u32,
    pub number: u32,
    pub from: u32,
    pub to: u32,
    pub bandwidth: u32,
    pub duration: u32,
    pub earliest: u32,
    pub latest: u32,
}

// The field of a latest start is all ones where it is open.
impl From<OrderForm> for OrderFields {
    ghost from_gives = { λ form fields. fields ≡ form_fields form };

    fn from(form: OrderForm) -> OrderFields {
        let wish = form.wish;
        OrderFields {
            kind: form.kind,
            number: form.number,
            from: wish.from,
            to: wish.to,
            bandwidth: wish.bandwidth.0,
            duration: wish.duration.0,
            earliest: wish.earliest.0,
            latest: wish.latest.map_or(OPEN, |minute| minute.0),
        }
    }
}

// The request that the fields of a booking or an offer hold.
impl From<OrderFields> for Wish {
    ghost from_gives = { λ fields wish. wish ≡ wish_of fields };

    fn from(fields: OrderFields) -> Wish {
        Wish {
            from: fields.from,
            to: fields.to,
            bandwidth: Bandwidth(fields.bandwidth),
            duration: Duration(fields.duration),
            earliest: Minute(fields.earliest),
            latest: (fields.latest != OPEN).then_some(Minute(fields.latest)),
        }
    }
}

// The order, if the fields that its kind does not use are zero; else 11.
fn if_unused(fields: &[u32], order: Order) -> Result<Order, Refusal>
    ensures { result ≡ if_passed (list_all (λ x. x == 0) fields.now) (Ok order) (Err Refusal.BadBits) }
{
    if fields.iter().all(|&field| field == 0) {
        Ok(order)
    } else {
        Err(Refusal::BadBits)
    }
}

// The order that the fields hold; 11 for an unknown kind, or a field that is set and that the kind does not use.
impl TryFrom<OrderFields> for Order {
    type Error = Refusal;

    ghost try_from_gives = { λ fields read. read ≡ order_from fields };

    #[tactic(auto, unfolding(crate::specs::Records::order_from, crate::specs::Records::clear))]
    fn try_from(f: OrderFields) -> Result<Order, Refusal> {
        match OrderKind::try_from(f.kind)? {
            OrderKind::Book => Ok(Order::Book(f.number, Wish::from(f))),
            OrderKind::Cancel => {
                let unused = [f.from, f.to, f.bandwidth, f.duration, f.earliest, f.latest];
                if_unused(&unused, Order::Cancel(f.number))
            }
            OrderKind::Clock => {
                let unused = [f.number, f.from, f.to, f.bandwidth, f.duration, f.latest];
                if_unused(&unused, Order::Clock(Minute(f.earliest)))
            }
            OrderKind::Offer => if_unused(&[f.number], Order::Offer(Wish::from(f))),
        }
    }
}

// The four fields of a link, as cut from its bits; the last is the zero field.
#[derive(Clone, Copy)]
pub struct LinkFields {
    pub from: u32,
    pub to: u32,
    pub capacity: u32,
    pub zero: u64,
}

// The link that the fields hold; 11 for a bit that is set where zero is due.
impl TryFrom<LinkFields> for Link {
    type Error = Refusal;

    ghost try_from_gives = { λ fields read. read ≡ link_from fields };

    #[tactic(auto, unfolding(crate::specs::Records::link_from))]
    fn try_from(fields: LinkFields) -> Result<Link, Refusal> {
        if fields.zero != 0 {
            return Err(Refusal::BadBits);
        }
        Ok(Link {
            from: fields.from,
            to: fields.to,
            capacity: Bandwidth(fields.capacity),
        })
    }
}

// An order for C: the refusal number, 0 if there is none, and every field. An open latest start is the last minute, and
// `latest_open` is then 1. A refusal has zero fields.
#[repr(C)]
#[derive(Clone, Copy)]
pub struct OrderRecord {
    pub refusal: u32,
    pub kind: u32,
    pub number: u32,
    pub request: Request,
    pub latest_open: u32,
}

// A booking, or an offer with the number 0, for C.
fn request_values(kind: OrderKind, number: u32, wish: Wish) -> OrderRecord
    ensures { result ≡ request_values (kind_number kind) number wish }
{
    OrderRecord {
        refusal: 0,
        kind: u32::from(kind),
        number,
        request: Request::from(wish),
        latest_open: u32::from(wish.latest.is_none()),
    }
}

// An order for C that holds no request but an earliest minute, and a refusal.
fn plain_values(refusal: u32, kind: u32, number: u32, minute: Minute) -> OrderRecord
    ensures { result ≡ plain_values refusal kind number minute.0 }
{
    OrderRecord {
        refusal,
        kind,
        number,
        request: Request {
            from: 0,
            to: 0,
            bandwidth: Bandwidth(0),
            duration: Duration(0),
            earliest: minute,
            latest: Minute(0),
        },
        latest_open: 0,
    }
}

impl From<Result<Order, Refusal>> for OrderRecord {
    ghost from_gives = { λ read shown. shown ≡ order_values read };

    fn from(read: Result<Order, Refusal>) -> OrderRecord {
        match read {
            Ok(Order::Book(number, wish)) => request_values(OrderKind::Book, number, wish),
            Ok(Order::Cancel(number)) => {
                plain_values(0, u32::from(OrderKind::Cancel), number, Minute(0))
            }
            Ok(Order::Clock(minute)) => plain_values(0, u32::from(OrderKind::Clock), 0, minute),
            Ok(Order::Offer(wish)) => request_values(OrderKind::Offer, 0, wish),
            Err(refusal) => plain_values(u32::from(refusal), 0, 0, Minute(0)),
        }
    }
}

// A link for C: the refusal number, 0 if there is none, and the link. A refusal has zero fields.
#[repr(C)]
#[derive(Clone, Copy)]
pub struct LinkRecord {
    pub refusal: u32,
    pub link: Link,
}

impl From<Result<Link, Refusal>> for LinkRecord {
    ghost from_gives = { λ read shown. shown ≡ link_values read };

    fn from(read: Result<Link, Refusal>) -> LinkRecord {
        match read {
            Ok(link) => LinkRecord { refusal: 0, link },
            Err(refusal) => LinkRecord {
                refusal: u32::from(refusal),
                link: Link {
                    from: 0,
                    to: 0,
                    capacity: Bandwidth(0),
                },
            },
        }
    }
}
