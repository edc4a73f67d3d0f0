// Which nodes and aspects are good: the rules of the house, as an image may hold them, and the rules of operands, counts and owners that
// the other kinds of record share. Records are read by value, each once; readers ask for their place and test nothing.
#![tactic(auto)]

mod aspects;
mod nodes;
mod parts;

pub use aspects::first_bad_aspect;
pub use nodes::{Places, first_bad_node};
pub use parts::{Tags, capability_ok, count_ok, is_alone, once_each, owner_ok, room_ok, speaks_of};
