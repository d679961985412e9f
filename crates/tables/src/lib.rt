// The lent tables: total reads and stores, and every field by its named column and typed index.
#![tactic(auto)]

pub mod calls;
pub mod directories;
pub mod files;
pub mod ids;
pub mod layout;
pub mod lent;
pub mod name_words;
pub mod names;
pub mod numbers;
pub mod open_files;
pub mod parts;
pub mod policy;
pub mod processes;
pub mod words;
