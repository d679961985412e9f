// Directories: an entry by its name's words, a free one, the names in byte order, what a directory becomes that gains or loses a name; and the entries that
// the root and /rom are seen with.
#![tactic(auto)]

pub mod changes;
pub mod entries;
pub mod seen;
