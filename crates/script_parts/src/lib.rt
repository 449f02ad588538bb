// A script's calls on the parts of a table: its arena, its ring, its queue, its blocked values and its open section's uses.
#![tactic(auto)]

mod arenas;
mod changes;
mod questions;

pub use arenas::on_arena;
pub use changes::change;
pub use questions::ask;
