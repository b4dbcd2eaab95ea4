// A booking whose figures are in range.

ghost use Rattle.changes.specs.Holding.{PlaceRight};

use book::Booking;

// A booking that can be added to the events and the free figures.
#[derive(Clone, Copy)]
pub(crate) struct RightBooking {
    pub(crate) booking: Booking,
    pub ghost right: { PlaceRight booking },
}
