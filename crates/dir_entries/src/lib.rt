// A directory's entries: read, written, found by name, appended and removed.
#![tactic(auto)]

pub mod editing;
pub mod finding;
