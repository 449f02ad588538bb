// Where the strings of a ring's entries stand.
use arena::RING;
use entries::SLOTS;
use ring::Ring;

// Where an entry's bytes start in the arena, and how many its name and its value have.
#[derive(Clone, Copy)]
pub struct Strings {
    pub start: u16,
    pub name: u16,
    pub value: u16,
}

// The entry after the first gone ones.
pub fn strings_of(ring: &Ring, gone: usize) -> Strings {
    let slot = gone % SLOTS;
    Strings {
        start: ring.starts[slot],
        name: ring.names[slot],
        value: ring.values[slot],
    }
}

// A byte of the arena's ring, 0 where the arena is shorter.
pub fn byte_of(arena: &[u8], at: u32) -> u8 {
    arena.get(at as usize % RING).copied().unwrap_or(0)
}
