// A call on a stream: whole instructions, one after another. The rest is definitions and laws.
#![tactic(auto)]

// A whole instruction, and the position past it.
#[derive(Clone, Copy)]
pub struct Whole<I> {
    pub instruction: I,
    pub next: usize,
}
