// The two ends of a session: bytes that come from a reader, in whatever pieces, and lines that go to a writer. The crate `session` calls it;
// nothing here reads or answers an order.
#![tactic(auto)]

pub mod reader;
pub mod writer;
