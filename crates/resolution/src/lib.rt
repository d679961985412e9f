// Pathname resolution: the names of a path, and the walk from name to name.
#![tactic(auto)]

mod path_names;
pub mod paths;
pub mod walk;
