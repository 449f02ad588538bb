// A ring of entries over the arena: its rules, the fewest oldest entries to drop, and the latest entry of a field or a name.
// It takes the arrays of a table as they stand in its record, and knows nothing of what keeps an entry from going.
#![tactic(auto)]

ghost use Rattle.std.specs.Prelude.{◌≡◌, true, cond, List, map, ℕ, ◌+◌, ◌-◌, ◌*◌, ◌^◌, ◌≤◌, ◌<◌, length, get_or};
ghost use Rattle.std.proofs.Math.Option.{none};
ghost use Rattle.arena.specs.Ring.{long_enough, ring};
ghost use Rattle.entries.specs.Entry.{slots, between, entries_of, field_of};
ghost use Rattle.entries.specs.Rules.{in_order, keeps_rules};
ghost use Rattle.entries.specs.Drop.{walked};
ghost use Rattle.entries.specs.Latest.{last_of, matches, bytes_in, is_given, latest};

use arena::RING;
use field::ESTIMATED_OVERHEAD_BYTES;

// How many entries the ring holds at the most.
pub const SLOTS: usize = 512;

// How the oldest entries make room: whether they do, how many go, and the size and the tail that are then left.
// The flag stands beside the numbers, and no Option: `walked` promises them where no room is made, too.
#[derive(Clone, Copy)]
pub struct Room {
    pub made: bool,
    pub count: usize,
    pub size: usize,
    pub tail: usize,
}

// The arrays of a ring of entries: where the bytes of each slot start, and how many its name and its value have.
// The numbers of a ring come one by one: the record that holds them, in C's layout, stands in the crate above.
#[derive(Clone, Copy)]
pub struct Slots<'a> {
    pub starts: &'a [u16; SLOTS],
    pub names: &'a [u16; SLOTS],
    pub values: &'a [u16; SLOTS],
}

impl<'a> Slots<'a> {
    // How many bytes the name and the value of a slot have.
    fn bytes_at(self, i: usize) -> usize
        requires { i < slots }
        ensures { (result ≡ get_or self.entry.names.now i 0 + get_or self.entry.values.now i 0) × (result < 2 * 2 ^ 16) }
    {
        usize::from(self.names[i]) + usize::from(self.values[i])
    }

    // Whether the live entries lie one after the other from the tail to the head, and have that size.
    fn walk(self, dropped: usize, inserted: usize, size: usize, tail: usize, head: usize) -> bool
        requires { (dropped ≤ inserted) × (inserted - dropped ≤ slots) × (tail < ring) }
        ensures { result ≡ in_order (entries_of self.entry dropped inserted) size tail head }
    {
        let mut p = tail;
        let mut sum = 0;
        for k in 0..inserted - dropped {
            let i = (dropped + k) % SLOTS;
            if usize::from(self.starts[i]) != p {
                return false;
            }
            let len = self.bytes_at(i);
            p = (p + len) % RING;
            sum += len + ESTIMATED_OVERHEAD_BYTES;
        }
        if p != head {
            return false;
        }
        sum == size
    }

    // Whether a ring keeps its rules.
    pub fn check(
        self,
        dropped: usize,
        inserted: usize,
        size: usize,
        capacity: usize,
        tail: usize,
        head: usize,
    ) -> bool
        ensures { result ≡ keeps_rules (entries_of self.entry dropped inserted) dropped inserted size capacity tail head }
    {
        if inserted < dropped {
            return false;
        }
        if SLOTS < inserted - dropped {
            return false;
        }
        if RING < capacity {
            return false;
        }
        if capacity < size {
            return false;
        }
        if RING <= tail {
            return false;
        }
        self.walk(dropped, inserted, size, tail, head)
    }

    // The fewest oldest entries, at most free of them, that leave the size at most room.
    pub fn fewest(
        self,
        dropped: usize,
        inserted: usize,
        size: usize,
        tail: usize,
        free: usize,
        room: usize,
    ) -> Room
        ensures { (starts : List ℕ) → result ≡ walked size tail free (between starts self.entry.names.now self.entry.values.now dropped inserted) room }
    {
        let most = free.min(inserted.saturating_sub(dropped));
        let mut left = size;
        let mut at = tail;
        for count in 0..most {
            if left <= room {
                return Room {
                    made: true,
                    count,
                    size: left,
                    tail: at,
                };
            }
            let len = self.bytes_at((dropped + count) % SLOTS);
            left = left.saturating_sub(len + ESTIMATED_OVERHEAD_BYTES);
            at = (at % RING + len) % RING;
        }
        Room {
            made: left <= room,
            count: most,
            size: left,
            tail: at,
        }
    }

    // The latest entry of a name and, where the whole field is looked for, of a value. In a short arena there is none.
    pub fn newest(
        self,
        arena: &[u8],
        dropped: usize,
        inserted: usize,
        name: &[u8],
        value: Option<&[u8]>,
    ) -> Option<usize>
        ensures { latest result ≡ cond (long_enough arena.now)
            (last_of (matches name.now (bytes_in value.entry) (is_given value.entry)) (map (field_of arena.now) (entries_of self.entry dropped inserted)))
            none }
    {
        if arena.len() < RING {
            return None;
        }
        for k in (0..inserted.saturating_sub(dropped)).rev() {
            let i = (dropped + k) % SLOTS;
            let start = usize::from(self.starts[i]);
            let len = usize::from(self.values[i]);
            if usize::from(self.names[i]) == name.len() {
                if stands(arena, start, len, name, value) {
                    return Some(k);
                }
            }
        }
        None
    }
}

// Whether an entry whose name is as long as the one looked for has that name and, where the whole field is looked for, that value.
fn stands(arena: &[u8], start: usize, len: usize, name: &[u8], value: Option<&[u8]>) -> bool
    requires { (long_enough arena.now ≡ true) × (start < 2 ^ 16) }
    ensures { result ≡ matches name.now (bytes_in value.entry) (is_given value.entry) (field_of arena.now (record { start = start; name = length name.now; value = len })) }
{
    let Some(value) = value else {
        return arena::is_at(arena, start, name);
    };
    if len != value.len() {
        return false;
    }
    if !arena::is_at(arena, start, name) {
        return false;
    }
    arena::is_at(arena, start + name.len(), value)
}
