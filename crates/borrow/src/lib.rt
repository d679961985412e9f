// The borrowing read: a read whose bytes are handed back themselves, not copied. `span` is the same as numbers, for C.
#![tactic(auto)]

mod judge;
pub mod read;
pub mod span;
