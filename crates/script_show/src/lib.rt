// A script's calls that show a table's record, and show and overwrite its arena's bytes.
#![tactic(auto)]

mod looks;
mod record;
mod strings;

pub use looks::look;
pub use strings::{Strings, byte_of, strings_of};
