// The dynamic table, RFC 9204 3.2: its record, the calls on it, the open section and the peer's reports.
#![tactic(auto)]

ghost use Rattle.std.specs.Prelude.{◌≡◌, true, false, Ok, Err, ◌+◌, ◌-◌, ◌≤◌, ◌<◌, ◌^◌};
ghost use Rattle.arena.specs.Ring.{long_enough};
ghost use Rattle.entries.specs.Latest.{bytes_in, is_given};
ghost use Rattle.model.specs.Drop as model-table;
ghost use Rattle.model.specs.Insert as model-insert;
ghost use Rattle.model.specs.Report as model-report;
ghost use Rattle.model.specs.Section as model-section;
ghost use Rattle.ring.specs.Ring.{largest_count};
ghost use Rattle.tracking.specs.Uses.{noted};
ghost use Rattle.dynamic.specs.Calls as calls;
ghost use Rattle.dynamic.specs.Promise.{Keeps, Puts, Finds, Inserts};
ghost use Rattle.dynamic.specs.Record.{checking, checked, Opens, RoomOf, Shape};

use answers::{Insertion, Lookup, Refusal};
use arena::RING;
pub use call_parts::{capacity_test, push_reply};
use call_parts::{lookup_of, open_floor, waiting_with, with_uses};
use entries::{Room, SLOTS};
use model::{BLOCKED_SECTIONS, BLOCKED_VALUES, QUEUE_PLACES, SECTION_ENTRIES};
use ring::{LARGEST_COUNT, Ring, Source};
use tracking::{Held, Queue, Section, Uses, Value, Waiting};

// A table by value; its strings stand in the arena that a call is lent.
#[repr(C)]
#[derive(Clone, Copy, PartialEq, Eq)]
pub struct Table {
    pub ring: Ring,
    // The known received count, and the blocked maximum.
    pub known: usize,
    pub most: usize,
    pub waiting: Waiting,
    pub queue: Queue,
    // Whether a section is open, with its base and what it uses: C knows the record's layout, so no Option.
    pub active: bool,
    pub base: usize,
    pub section: Section,
}

// A table and a call's answer.
#[derive(Clone, Copy)]
pub struct Replied {
    pub table: Table,
    pub reply: Result<(), Refusal>,
}

// A table and a find's answer.
#[derive(Clone, Copy)]
pub struct Looked {
    pub table: Table,
    pub found: Result<Lookup, Refusal>,
}

// A table and an insert's answer.
#[derive(Clone, Copy)]
pub struct Inserting {
    pub table: Table,
    pub inserted: Result<Insertion, Refusal>,
}

// What names a new entry: an older one by its absolute index, or the static table; or nothing does, of four ways.
#[derive(Clone, Copy)]
pub enum Origin {
    EqualEntry(usize),
    StaticName(usize),
    NamedEntry(usize),
    Plain,
}

// Larger than any entry's index: the least of some indexes, where there are none.
const NOTHING_USED: usize = 18446744073709551615;

// No use.
const NO_USE: Held = Held {
    offset: 0,
    count: 0,
};

// How a new entry is written.
fn insertion_of(base: usize, absolute: usize, origin: Origin) -> Insertion
    requires { (base < absolute) × calls.OlderThan absolute origin }
    ensures { result ≡ model-insert.insertion_of base absolute (calls.origin_of origin) }
{
    let postbase = absolute - base - 1;
    match origin {
        Origin::EqualEntry(older) => Insertion::Duplicated {
            relative: absolute - older - 1,
            postbase,
            absolute,
        },
        Origin::StaticName(index) => Insertion::InsertedWithStaticNameRef {
            postbase,
            index,
            absolute,
        },
        Origin::NamedEntry(older) => Insertion::InsertedWithNameRef {
            postbase,
            relative: absolute - older - 1,
            absolute,
        },
        Origin::Plain => Insertion::Inserted { postbase, absolute },
    }
}

// What names a new entry, once the entries up to gone are dropped.
fn origin_of(ring: &Ring, arena: &[u8], gone: usize, name: &[u8], value: &[u8]) -> Origin
    requires { (ring.now.inserted ≤ largest_count) × (gone ≤ ring.now.inserted) × (long_enough arena.now ≡ true) }
    ensures result_value { calls.origin_of result ≡ calls.origin_after ring.now gone arena.now name.now value.now }
    ensures older_than { calls.OlderThan (ring.now.inserted + 1) result × calls.NewerThan gone result }
{
    if let Some(k) = ring.newest(arena, gone, name, Some(value)) {
        return Origin::EqualEntry(gone + k + 1);
    }
    if let Some(i) = static_table::find_name(name) {
        return Origin::StaticName(i);
    }
    if let Some(k) = ring.newest(arena, gone, name, None) {
        return Origin::NamedEntry(gone + k + 1);
    }
    Origin::Plain
}

// A section's uses with one more of an entry.
fn note(section: &Section, entry: usize) -> Option<Uses>
    requires { (section.now.from ≤ entry) × (entry - section.now.from < 2 ^ 16) }
    ensures { noted section.now.uses section.now.used result ≡ calls.noted_in section.now entry }
{
    tracking::note(section, (entry - section.from) as u16)
}

// The uses of a section that inserts: the new entry's, and an older one's too where that names it.
fn note_origin(section: &Section, absolute: usize, origin: Origin) -> Option<Uses>
    requires { (section.now.from ≤ absolute) × (absolute - section.now.from < 2 ^ 16) × calls.OlderThan absolute origin × calls.NewerThan section.now.from origin }
    ensures { calls.Fitted result (calls.noted_for section.now absolute (calls.origin_of origin)) }
{
    let first = note(section, absolute)?;
    match origin {
        Origin::EqualEntry(older) => note(&with_uses(section, first), older),
        Origin::StaticName(_) => Some(first),
        Origin::NamedEntry(older) => note(&with_uses(section, first), older),
        Origin::Plain => Some(first),
    }
}

// The entries with one more, where it can be, of any record that has them. This step and `enqueue` are lent the parts that
// they change, and `limit_blocked`, `open` and `close` are handed what the record was admitted with: a record that is lent
// to the check after it was made to change would be copied twice more.
fn put_in(
    ring: &mut Ring,
    admitted: Result<usize, Refusal>,
    arena: &mut [u8],
    name: &[u8],
    value: &[u8],
) -> Result<(), Refusal>
    ensures { (t : Table) → admitted ≡ calls.admitting_with (calls.with_ring ring.old t) arena.old false → Shape (calls.with_ring ring.old t)
        → Puts (calls.with_ring ring.old t) arena.old arena.new (calls.put (calls.with_ring ring.old t) arena.old name.now value.now)
        (calls.answer (calls.with_ring ring.new t) result) name.now value.now }
{
    let low = admitted?;
    let capacity = ring.capacity;
    let pushed = ring.push(arena, low, Source::Given, name, value);
    *ring = pushed.ring;
    push_reply(capacity, pushed.push)
}

impl Table {
    // A table with nothing in it, and no room.
    pub fn fresh() -> Table
        ensures { result ≡ calls.fresh_table }
    {
        let section = Section {
            stream: 0,
            from: 0,
            used: 0,
            uses: [NO_USE; SECTION_ENTRIES],
        };
        let value = Value {
            largest: 0,
            sections: 0,
        };
        Table {
            ring: Ring {
                inserted: 0,
                dropped: 0,
                size: 0,
                capacity: 0,
                tail: 0,
                head: 0,
                starts: [0; SLOTS],
                names: [0; SLOTS],
                values: [0; SLOTS],
            },
            known: 0,
            most: 0,
            waiting: Waiting {
                total: 0,
                distinct: 0,
                values: [value; BLOCKED_VALUES],
            },
            queue: Queue {
                queued: 0,
                places: [section; QUEUE_PLACES],
            },
            active: false,
            base: 0,
            section,
        }
    }

    // The lowest entry that a section uses, where the record keeps its rules.
    pub fn checked(&self) -> Option<usize>
        ensures { checked result ≡ checking self.now }
    {
        if !self.ring.sound() {
            return None;
        }
        if LARGEST_COUNT < self.known {
            return None;
        }
        if BLOCKED_SECTIONS <= self.most {
            return None;
        }
        if !tracking::waiting_ok(&self.waiting) {
            return None;
        }
        let dropped = self.ring.dropped;
        let inserted = self.ring.inserted;
        let queued = tracking::queue_floor(&self.queue, dropped, inserted, NOTHING_USED)?;
        open_floor(
            self.active,
            self.base,
            &self.section,
            dropped,
            inserted,
            queued,
        )
    }

    // What every call tests first: 22, then 18 or 19 by whether it needs an open section. It gives the lowest entry that a section uses.
    fn admitted(&self, wanted: bool) -> Result<usize, Refusal>
        ensures { result ≡ calls.admitting self.now «wanted» }
    {
        let low = self.checked().ok_or(Refusal::BadCall)?;
        if self.active == wanted {
            return Ok(low);
        }
        if self.active {
            return Err(Refusal::SectionOpen);
        }
        Err(Refusal::NoSection)
    }

    // The same with an arena, which is to be long enough: tested behind the record, as a test before it would have the record copied.
    fn admitted_with(&self, arena: &[u8], wanted: bool) -> Result<usize, Refusal>
        ensures { result ≡ calls.admitting_with self.now arena.now «wanted» }
    {
        let admitted = self.admitted(wanted);
        if arena.len() < RING {
            return Err(Refusal::BadCall);
        }
        admitted
    }

    fn resize(&mut self, capacity: usize) -> Result<(), Refusal>
        ensures { Shape self.old → Keeps self.old (calls.set_capacity self.old capacity) (calls.answer self.new result) (λ t. model-table.set_capacity t capacity) }
    {
        let low = self.admitted(false)?;
        capacity_test(capacity)?;
        let ring = self.ring.cut(low, capacity).ok_or(Refusal::ShrinkBlocked)?;
        self.ring = ring;
        Ok(())
    }

    // Each call that C makes takes the record by value and gives it back: a step of its own, and what the step answered.

    // Sets the capacity.
    pub fn set_capacity(mut self, capacity: usize) -> Replied
        ensures { Keeps self (calls.set_capacity self capacity) result (λ t. model-table.set_capacity t capacity) }
    {
        let reply = self.resize(capacity);
        Replied { table: self, reply }
    }

    fn limit_blocked(
        &mut self,
        admitted: Result<usize, Refusal>,
        most: usize,
    ) -> Result<(), Refusal>
        requires { admitted ≡ calls.admitting self.old false }
        ensures { Keeps self.old (calls.set_most self.old most) (calls.answer self.new result) (λ t. model-table.set_blocked_max t most) }
    {
        admitted?;
        if BLOCKED_SECTIONS <= most {
            return Err(Refusal::MaxBlockedStreamsTooLarge);
        }
        self.most = most;
        Ok(())
    }

    // Sets the blocked maximum.
    pub fn set_max_blocked(self, most: usize) -> Replied
        ensures { Keeps self (calls.set_most self most) result (λ t. model-table.set_blocked_max t most) }
    {
        let admitted = self.admitted(false);
        let mut table = self;
        let reply = table.limit_blocked(admitted, most);
        Replied { table, reply }
    }

    // Inserts a field that the peer sent, where it can be.
    pub fn put(self, arena: &mut [u8], name: &[u8], value: &[u8]) -> Replied
        ensures { Puts self arena.old arena.new (calls.put self arena.old name.now value.now) result name.now value.now }
    {
        let admitted = self.admitted_with(arena, false);
        let mut ring = self.ring;
        let reply = put_in(&mut ring, admitted, arena, name, value);
        Replied {
            table: Table { ring, ..self },
            reply,
        }
    }

    fn open(&mut self, admitted: Result<usize, Refusal>, stream: u64) -> Result<(), Refusal>
        requires { admitted ≡ calls.admitting self.old false }
        ensures { Keeps self.old (calls.begin self.old stream) (calls.answer self.new result) (λ t. model-section.begin t stream) }
    {
        admitted?;
        let dropped = self.ring.dropped;
        self.active = true;
        self.base = self.ring.inserted - dropped;
        self.section = Section {
            stream,
            from: dropped,
            used: 0,
            uses: [NO_USE; SECTION_ENTRIES],
        };
        Ok(())
    }

    // Opens a section of a stream.
    pub fn begin(self, stream: u64) -> Replied
        ensures { Keeps self (calls.begin self stream) result (λ t. model-section.begin t stream) }
    {
        let admitted = self.admitted(false);
        let mut table = self;
        let reply = table.open(admitted, stream);
        Replied { table, reply }
    }

    // The latest entry of a name or of a whole field, which the open section then uses.
    fn seek(&mut self, arena: &[u8], name: &[u8], value: Option<&[u8]>) -> Result<Lookup, Refusal>
        requires { Opens self.old × (long_enough arena.now ≡ true) }
        ensures { calls.looked self.new result
            ≡ calls.found_at self.old (calls.latest_of self.old arena.now name.now (bytes_in value.entry) (is_given value.entry)) }
    {
        let dropped = self.ring.dropped;
        let Some(k) = self.ring.newest(arena, dropped, name, value) else {
            return Ok(Lookup::NotFound);
        };
        let absolute = dropped + k + 1;
        let uses = note(&self.section, absolute).ok_or(Refusal::TrackingFull)?;
        self.section = with_uses(&self.section, uses);
        Ok(lookup_of(self.base, absolute))
    }

    fn find_in(&mut self, arena: &[u8], name: &[u8], value: &[u8]) -> Result<Lookup, Refusal>
        ensures { Shape self.old → Finds self.old arena.now name.now value.now (calls.looked self.new result) }
    {
        self.admitted_with(arena, true)?;
        self.seek(arena, name, Some(value))
    }

    // The latest entry of a field, which the open section then uses.
    pub fn find(mut self, arena: &[u8], name: &[u8], value: &[u8]) -> Looked
        ensures { Finds self arena.now name.now value.now result }
    {
        let found = self.find_in(arena, name, value);
        Looked { table: self, found }
    }

    // An insertion that is not made: what names the field.
    fn name_only(&mut self, arena: &[u8], name: &[u8]) -> Result<Insertion, Refusal>
        requires { Opens self.old × (long_enough arena.now ≡ true) }
        ensures inserted_value { (v : _) → calls.inserting self.new result ≡ calls.not_inserted self.old arena.now name.now v }
        ensures ring_value { self.new.ring ≡ self.old.ring }
    {
        if let Some(i) = static_table::find_name(name) {
            return Ok(Insertion::NotInserted(Lookup::Static(i)));
        }
        let lookup = self.seek(arena, name, None)?;
        Ok(Insertion::NotInserted(lookup))
    }

    // An insertion for which there is room.
    fn insert_made(
        &mut self,
        arena: &mut [u8],
        low: usize,
        room: Room,
        name: &[u8],
        value: &[u8],
    ) -> Result<Insertion, Refusal>
        requires { Opens self.old × RoomOf self.old low room name.now value.now × (long_enough arena.old ≡ true) }
        ensures inserted_value { calls.inserting self.new result ≡ calls.made self.old room arena.old name.now value.now }
        ensures arena_after { Shape self.old → arena.new ≡ calls.bytes_after self.old self.new arena.old name.now value.now }
    {
        let gone = self.ring.dropped + room.count;
        let origin = origin_of(&self.ring, arena, gone, name, value);
        let absolute = self.ring.inserted + 1;
        let uses = note_origin(&self.section, absolute, origin).ok_or(Refusal::TrackingFull)?;
        if LARGEST_COUNT <= self.ring.inserted {
            return Err(Refusal::CountTooLarge);
        }
        let pushed = self.ring.push(arena, low, Source::Given, name, value);
        self.ring = pushed.ring;
        self.section = with_uses(&self.section, uses);
        Ok(insertion_of(self.base, absolute, origin))
    }

    fn enter(&mut self, arena: &mut [u8], name: &[u8], value: &[u8]) -> Result<Insertion, Refusal>
        ensures { Shape self.old → Inserts self.old arena.old arena.new name.now value.now (calls.inserting self.new result) }
    {
        let low = self.admitted_with(arena, true)?;
        if self.most <= self.waiting.total {
            return self.name_only(arena, name);
        }
        let room = self.ring.room(low, name.len(), value.len());
        if !room.made {
            return self.name_only(arena, name);
        }
        self.insert_made(arena, low, room, name, value)
    }

    // Inserts a field that the open section then uses, or says what names it.
    pub fn insert(mut self, arena: &mut [u8], name: &[u8], value: &[u8]) -> Inserting
        ensures { Inserts self arena.old arena.new name.now value.now result }
    {
        let inserted = self.enter(arena, name, value);
        Inserting {
            table: self,
            inserted,
        }
    }

    // The parts that a commit changes, of any record that has them beside the rest of this one.
    fn enqueue(
        &self,
        queue: &mut Queue,
        waiting: &mut Waiting,
        active: &mut bool,
        admitted: Result<usize, Refusal>,
        largest: usize,
    ) -> Result<(), Refusal>
        ensures { let before = calls.with_parts queue.old waiting.old active.old self.now in
            admitted ≡ calls.admitting before true → Shape before
            → Keeps before (calls.commit before largest) (calls.answer (calls.with_parts queue.new waiting.new active.new self.now) result)
            (λ t. model-section.commit t largest) }
    {
        admitted?;
        if self.ring.inserted < largest {
            return Err(Refusal::BadLargest);
        }
        let next = tracking::push(queue, &self.section).ok_or(Refusal::TrackingFull)?;
        let more = waiting_with(waiting, self.known, largest).ok_or(Refusal::TrackingFull)?;
        *queue = next;
        *waiting = more;
        *active = false;
        Ok(())
    }

    // Puts the open section into the queue; largest is its largest reference.
    pub fn commit(self, largest: usize) -> Replied
        ensures { Keeps self (calls.commit self largest) result (λ t. model-section.commit t largest) }
    {
        let admitted = self.admitted(true);
        let mut queue = self.queue;
        let mut waiting = self.waiting;
        let mut active = self.active;
        let reply = self.enqueue(&mut queue, &mut waiting, &mut active, admitted, largest);
        Replied {
            table: Table {
                queue,
                waiting,
                active,
                ..self
            },
            reply,
        }
    }

    fn close(&mut self, admitted: Result<usize, Refusal>) -> Result<(), Refusal>
        requires { admitted ≡ calls.admitting self.old true }
        ensures { Keeps self.old (calls.abandon self.old) (calls.answer self.new result) model-section.abandon }
    {
        admitted?;
        self.active = false;
        Ok(())
    }

    // Closes the open section and gives all its references back.
    pub fn abandon(self) -> Replied
        ensures { Keeps self (calls.abandon self) result (model-section.abandon) }
    {
        let admitted = self.admitted(true);
        let mut table = self;
        let reply = table.close(admitted);
        Replied { table, reply }
    }

    // The release of the stream's oldest section in the queue, which an acknowledgement and a cancellation are.
    fn release(&mut self, stream: u64) -> Result<(), Refusal>
        ensures { Shape self.old → Keeps self.old (calls.release self.old stream) (calls.answer self.new result) (λ t. model-report.release t stream) }
    {
        self.admitted(false)?;
        let queue = tracking::release(&self.queue, stream).ok_or(Refusal::UnknownStreamId)?;
        self.queue = queue;
        Ok(())
    }

    // The peer acknowledged a section of a stream.
    pub fn acknowledge(mut self, stream: u64) -> Replied
        ensures { Keeps self (calls.release self stream) result (λ t. model-report.release t stream) }
    {
        let reply = self.release(stream);
        Replied { table: self, reply }
    }

    // The peer cancelled a stream: C and RFC 9204 4.4.2 name this apart from an acknowledgement.
    pub fn cancel(mut self, stream: u64) -> Replied
        ensures { Keeps self (calls.release self stream) result (λ t. model-report.release t stream) }
    {
        let reply = self.release(stream);
        Replied { table: self, reply }
    }

    fn receive(&mut self, inserts: usize) -> Result<(), Refusal>
        ensures { Shape self.old → Keeps self.old (calls.increment self.old inserts) (calls.answer self.new result) (λ t. model-report.increment t inserts) }
    {
        self.admitted(false)?;
        let known = self.known;
        if LARGEST_COUNT - known < inserts {
            return Err(Refusal::CountTooLarge);
        }
        self.known = known + inserts;
        self.waiting = tracking::let_go(&self.waiting, known + inserts);
        Ok(())
    }

    // The peer received more inserts.
    pub fn increment(mut self, inserts: usize) -> Replied
        ensures { Keeps self (calls.increment self inserts) result (λ t. model-report.increment t inserts) }
    {
        let reply = self.receive(inserts);
        Replied { table: self, reply }
    }
}
