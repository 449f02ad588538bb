// A script's commands, read from a source of bytes, and their answers, which print themselves.
#![tactic(auto)]

pub mod answer;
pub mod bounds;
pub mod calls;
pub mod faults;
pub mod input;
mod line;
pub mod opcodes;
pub mod session;
pub mod text;
pub mod words;
