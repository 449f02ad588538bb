// A table's entries by value: the ring's numbers and arrays, a push that drops what it must, a smaller capacity, and the latest entry.
#![tactic(auto)]

ghost use Rattle.std.specs.Prelude.{◌≡◌, true, cond, List, map, ℕ, ◌+◌, ◌-◌, ◌%◌, ◌<◌, ◌≤◌, leb, length};
ghost use Rattle.std.proofs.Math.Option.{none};
ghost use Rattle.arena.specs.Ring.{ring, long_enough};
ghost use Rattle.entries.specs.Entry.{slots, slot_of, between, bytes_of, field_of};
ghost use Rattle.entries.specs.Latest.{last_of, matches, bytes_in, is_given, latest};
ghost use Rattle.field.specs.Field.{overhead};
ghost use Rattle.ring.specs.Ring.{keeps, live, free_below, room_in, room_for, live_in, source_live, drawn, placed, Pushes, was_cut, cutting};
ghost use Rattle.ring.specs.Plan.{entry_of, Plans};

use arena::RING;
use entries::{Room, SLOTS, Slots};
use field::ESTIMATED_OVERHEAD_BYTES;

// The most entries that are ever inserted.
pub const LARGEST_COUNT: usize = 4611686018427387903;

// The entries of a table; their strings stand in the arena that a call is lent.
#[repr(C)]
#[derive(Clone, Copy, PartialEq, Eq)]
pub struct Ring {
    // How many entries were ever inserted, and how many of these are gone.
    pub inserted: usize,
    pub dropped: usize,
    // The sum over the live entries, and the most that it may be.
    pub size: usize,
    pub capacity: usize,
    // Where the oldest entry's bytes start in the arena, and where the next one's go.
    pub tail: usize,
    pub head: usize,
    // Where each entry's bytes start, and how many its name and its value have: three arrays, as C knows the record's layout.
    pub starts: [u16; SLOTS],
    pub names: [u16; SLOTS],
    pub values: [u16; SLOTS],
}

// Where a new entry's strings come from: both handed in, or from the live entry at a position, its name alone or all of it.
#[derive(Clone, Copy)]
pub enum Source {
    Given,
    NameOf(usize),
    CopyOf(usize),
}

// What a push did: only a push that is made changes anything.
#[derive(Clone, Copy)]
pub enum Push {
    Made,
    // Larger than the capacity.
    TooLarge,
    // The entries that may go leave too little room.
    NoRoom,
    // As many were inserted as ever can be.
    Full,
    // A short arena, a number out of range, or a source that is not live.
    BadCall,
}

// A ring after a push, and what the push did: one of five outcomes, with the ring in each, so no Result says it more plainly.
#[derive(Clone, Copy)]
pub struct Pushed {
    pub ring: Ring,
    pub push: Push,
}

// Where an entry's bytes start, and how many its name and its value have.
#[derive(Clone, Copy)]
struct Stored {
    start: usize,
    name: usize,
    value: usize,
}

// Whether an entry of name and value bytes is within a capacity.
fn fits(capacity: usize, name: usize, value: usize) -> bool
    ensures { result ≡ leb (name + value + overhead) capacity }
{
    if capacity < ESTIMATED_OVERHEAD_BYTES {
        return false;
    }
    let most = capacity - ESTIMATED_OVERHEAD_BYTES;
    if most < name {
        return false;
    }
    value <= most - name
}

// Whether the source of an entry is one of count live ones.
fn is_live(source: Source, count: usize) -> bool
    ensures { result ≡ live_in count source }
{
    match source {
        Source::Given => true,
        Source::NameOf(k) => k < count,
        Source::CopyOf(k) => k < count,
    }
}

// The strings of an entry that stands at its source as e, put to the head of the arena.
fn place(arena: &mut [u8], head: usize, source: Source, e: Stored, name: &[u8], value: &[u8])
    requires { (long_enough arena.old ≡ true) × (head < ring) × (bytes_of (entry_of e) ≤ ring) }
    ensures { arena.new ≡ placed arena.old head source (entry_of e) name.now value.now }
{
    match source {
        Source::Given => {
            arena::write(arena, head, name);
            arena::write(arena, head + name.len(), value);
        }
        Source::NameOf(_) => {
            arena::move_bytes(arena, e.start, head, e.name);
            arena::write(arena, head + e.name, value);
        }
        Source::CopyOf(_) => {
            arena::move_bytes(arena, e.start, head, e.name + e.value);
        }
    }
}

impl Ring {
    // The arrays, as the calls over entries take them.
    fn slots(&self) -> Slots<'_>
        ensures starts { result.starts.now ≡ self.now.starts }
        ensures names { result.names.now ≡ self.now.names }
        ensures values { result.values.now ≡ self.now.values }
    {
        Slots {
            starts: &self.starts,
            names: &self.names,
            values: &self.values,
        }
    }

    // Whether the ring keeps its rules.
    pub fn sound(&self) -> bool
        ensures { result ≡ keeps self.now }
    {
        if LARGEST_COUNT < self.inserted {
            return false;
        }
        self.slots().check(
            self.dropped,
            self.inserted,
            self.size,
            self.capacity,
            self.tail,
            self.head,
        )
    }

    // How many of the oldest entries may go, if those below low may.
    fn free_below(&self, low: usize) -> usize
        ensures { result ≡ free_below self.now low }
    {
        low.saturating_sub(self.dropped).saturating_sub(1)
    }

    // The fewest oldest entries below low that leave the size at most room.
    fn fewest(&self, low: usize, room: usize) -> Room
        ensures { result ≡ room_in self.now low room }
    {
        let free = self.free_below(low);
        self.slots().fewest(
            self.dropped,
            self.inserted,
            self.size,
            self.tail,
            free,
            room,
        )
    }

    // The room that the oldest entries make for one of name and value bytes: those below low may go.
    pub fn room(&self, low: usize, name: usize, value: usize) -> Room
        ensures { result ≡ room_for self.now low name value }
    {
        if !fits(self.capacity, name, value) {
            return Room {
                made: false,
                count: 0,
                size: self.size,
                tail: self.tail,
            };
        }
        self.fewest(
            low,
            self.capacity - (name + value + ESTIMATED_OVERHEAD_BYTES),
        )
    }

    // The entry that comes after the first gone ones.
    fn entry_at(&self, gone: usize) -> Stored
        ensures { entry_of result ≡ slot_of self.now.starts self.now.names self.now.values (gone % slots) }
    {
        let i = gone % SLOTS;
        Stored {
            start: usize::from(self.starts[i]),
            name: usize::from(self.names[i]),
            value: usize::from(self.values[i]),
        }
    }

    // The entry that comes as it stands at its source: name and value are the lengths of the strings handed in.
    fn entry_from(&self, source: Source, name: usize, value: usize) -> Stored
        requires { source_live self.now source ≡ true }
        ensures { entry_of result ≡ drawn (live self.now) source name value }
    {
        match source {
            Source::Given => Stored {
                start: 0,
                name,
                value,
            },
            Source::NameOf(k) => {
                let e = self.entry_at(self.dropped + k);
                Stored {
                    start: e.start,
                    name: e.name,
                    value,
                }
            }
            Source::CopyOf(k) => self.entry_at(self.dropped + k),
        }
    }

    // What a push comes to: why it changes nothing, or the entry as it stands at its source and the room made for it.
    fn plan_push(
        &self,
        arena: &[u8],
        low: usize,
        source: Source,
        name: &[u8],
        value: &[u8],
    ) -> Result<(Stored, Room), Push>
        ensures { Plans self.now arena.now low source name.now value.now result }
    {
        if RING < self.capacity {
            return Err(Push::BadCall);
        }
        if RING <= self.head {
            return Err(Push::BadCall);
        }
        if arena.len() < RING {
            return Err(Push::BadCall);
        }
        if !is_live(source, self.inserted.saturating_sub(self.dropped)) {
            return Err(Push::BadCall);
        }
        let e = self.entry_from(source, name.len(), value.len());
        if !fits(self.capacity, e.name, e.value) {
            return Err(Push::TooLarge);
        }
        let m = self.fewest(
            low,
            self.capacity - (e.name + e.value + ESTIMATED_OVERHEAD_BYTES),
        );
        if !m.made {
            return Err(Push::NoRoom);
        }
        if LARGEST_COUNT <= self.inserted {
            return Err(Push::Full);
        }
        Ok((e, m))
    }

    // One more entry, after the fewest old ones below low went.
    pub fn push(
        mut self,
        arena: &mut [u8],
        low: usize,
        source: Source,
        name: &[u8],
        value: &[u8],
    ) -> Pushed
        ensures { Pushes self arena.old arena.new low source name.now value.now result }
    {
        match self.plan_push(arena, low, source, name, value) {
            Err(push) => Pushed { ring: self, push },
            Ok((e, m)) => {
                place(arena, self.head, source, e, name, value);
                let i = self.inserted % SLOTS;
                self.starts[i] = self.head as u16;
                self.names[i] = e.name as u16;
                self.values[i] = e.value as u16;
                self.inserted += 1;
                self.dropped += m.count;
                self.size = m.size + (e.name + e.value + ESTIMATED_OVERHEAD_BYTES);
                self.tail = m.tail;
                self.head = (self.head + (e.name + e.value)) % RING;
                Pushed {
                    ring: self,
                    push: Push::Made,
                }
            }
        }
    }

    // Another capacity, after the fewest old entries below low went; none where entries that may not go are in the way.
    pub fn cut(mut self, low: usize, capacity: usize) -> Option<Ring>
        ensures { was_cut self result ≡ cutting self low capacity }
    {
        let room = self.fewest(low, capacity);
        if !room.made {
            return None;
        }
        self.dropped += room.count;
        self.size = room.size;
        self.capacity = capacity;
        self.tail = room.tail;
        Some(self)
    }

    // The latest entry of a name and, where the whole field is looked for, of a value, among those after the first gone ones.
    pub fn newest(
        &self,
        arena: &[u8],
        gone: usize,
        name: &[u8],
        value: Option<&[u8]>,
    ) -> Option<usize>
        ensures { latest result ≡ cond (long_enough arena.now)
            (last_of (matches name.now (bytes_in value.entry) (is_given value.entry)) (map (field_of arena.now) (between self.now.starts self.now.names self.now.values gone self.now.inserted)))
            none }
    {
        self.slots().newest(arena, gone, self.inserted, name, value)
    }
}
