// What a table keeps of sections: the entries that each one uses, and the queue of committed ones. The blocked ones stand in a crate of their own.
#![tactic(auto)]

ghost use Rattle.std.specs.Prelude.{◌≡◌, ◌<◌, ◌≤◌, eqb, position, take};
ghost use Rattle.model.specs.Bounds.{section_entries, queue_places};
ghost use Rattle.tracking.specs.Uses.{place_of, use_of, noted, noting};
ghost use Rattle.tracking.specs.Queue.{is_live_use, floored, section_floor, queue_floor, stepped, pushing, releasing};

pub use blocked::{Value, Waiting, block, let_go, waiting_ok};
use model::{ENTRY_USES, QUEUE_PLACES, SECTION_ENTRIES};

// One entry's uses in a section: how far the entry lies above the section's first number, and how often it is used.
#[repr(C)]
#[derive(Clone, Copy, PartialEq, Eq)]
pub struct Held {
    pub offset: u16,
    pub count: u16,
}

// The entries that a section of a stream uses: the first `used` of the uses. Fixed memory, whose layout C knows.
#[repr(C)]
#[derive(Clone, Copy, PartialEq, Eq)]
pub struct Section {
    pub stream: u64,
    pub from: usize,
    pub used: usize,
    pub uses: [Held; SECTION_ENTRIES],
}

// The uses of a section: the first `used` of them.
#[derive(Clone, Copy)]
pub struct Uses {
    pub used: usize,
    pub uses: [Held; SECTION_ENTRIES],
}

// The committed sections, oldest first: the first `queued` places. Fixed memory, whose layout C knows.
#[repr(C)]
#[derive(Clone, Copy, PartialEq, Eq)]
pub struct Queue {
    pub queued: usize,
    pub places: [Section; QUEUE_PLACES],
}

// A place with no section.
const NO_SECTION: Section = Section {
    stream: 0,
    from: 0,
    used: 0,
    uses: [Held {
        offset: 0,
        count: 0,
    }; SECTION_ENTRIES],
};

// The place of an entry among a section's uses.
fn place_of(section: &Section, offset: u16) -> Option<usize>
    requires { section.now.used ≤ section_entries }
    ensures { result ≡ position (λ h. eqb h.offset offset) (take section.now.used section.now.uses) }
{
    section.uses[..section.used]
        .iter()
        .position(|held| held.offset == offset)
}

// One more use of the entry at a place.
fn use_again(section: &Section, offset: u16, i: usize) -> Option<Uses>
    requires { (section.now.used ≤ section_entries) × (i ≡ place_of offset (take section.now.used section.now.uses)) × (i < section.now.used) }
    ensures { noted section.now.uses section.now.used result ≡ noting section.now.uses section.now.used offset }
{
    let held = section.uses[i];
    if usize::from(held.count) >= ENTRY_USES {
        return None;
    }
    let mut uses = section.uses;
    uses[i] = Held {
        offset,
        count: held.count + 1,
    };
    Some(Uses {
        used: section.used,
        uses,
    })
}

// The first use of an entry.
fn use_first(section: &Section, offset: u16) -> Option<Uses>
    requires { (section.now.used ≤ section_entries) × (section.now.used ≤ place_of offset (take section.now.used section.now.uses)) }
    ensures { noted section.now.uses section.now.used result ≡ noting section.now.uses section.now.used offset }
{
    let used = section.used;
    if used >= SECTION_ENTRIES {
        return None;
    }
    let mut uses = section.uses;
    uses[used] = Held { offset, count: 1 };
    Some(Uses {
        used: used + 1,
        uses,
    })
}

// A section's uses with a reference to one more entry, or one more to an entry that is used already; none where a bound would be passed.
pub fn note(section: &Section, offset: u16) -> Option<Uses>
    ensures { noted section.now.uses section.now.used result ≡ noting section.now.uses section.now.used offset }
{
    if section.used > SECTION_ENTRIES {
        return None;
    }
    match place_of(section, offset) {
        Some(i) => use_again(section, offset, i),
        None => use_first(section, offset),
    }
}

// Whether a use counts at least one, and is of an entry that was inserted and not dropped.
fn is_live(held: Held, from: usize, dropped: usize, inserted: usize) -> bool
    ensures { result ≡ is_live_use dropped inserted (use_of from held) }
{
    if held.count < 1 {
        return false;
    }
    if inserted < from {
        return false;
    }
    let offset = usize::from(held.offset);
    if inserted - from < offset {
        return false;
    }
    dropped < from + offset
}

// The lowest of a section's uses and a number handed in; none where a use is of no live entry.
// The two counts stand by themselves: the queue knows no ring, and `replay` names each of them.
pub fn section_floor(
    section: &Section,
    dropped: usize,
    inserted: usize,
    low: usize,
) -> Option<usize>
    ensures { floored low result ≡ section_floor section.now dropped inserted low }
{
    if section.used > SECTION_ENTRIES {
        return None;
    }
    let mut least = low;
    for &held in &section.uses[..section.used] {
        if !is_live(held, section.from, dropped, inserted) {
            return None;
        }
        least = least.min(section.from + usize::from(held.offset));
    }
    Some(least)
}

// The same for all sections of a queue.
pub fn queue_floor(queue: &Queue, dropped: usize, inserted: usize, low: usize) -> Option<usize>
    ensures { floored low result ≡ queue_floor queue.now dropped inserted low }
{
    if queue.queued > QUEUE_PLACES {
        return None;
    }
    let mut least = low;
    for section in &queue.places[..queue.queued] {
        least = section_floor(section, dropped, inserted, least)?;
    }
    Some(least)
}

// The queue with one more section at its end, where a place is free.
pub fn push(queue: &Queue, section: &Section) -> Option<Queue>
    ensures { stepped queue.now result ≡ pushing queue.now section.now }
{
    let queued = queue.queued;
    if queued >= QUEUE_PLACES {
        return None;
    }
    let mut next = *queue;
    next.places[queued] = *section;
    next.queued += 1;
    Some(next)
}

// The place of a stream's oldest section.
fn oldest_of(queue: &Queue, stream: u64) -> Option<usize>
    requires { queue.now.queued ≤ queue_places }
    ensures { result ≡ position (λ s. eqb s.stream stream) (take queue.now.queued queue.now.places) }
{
    queue.places[..queue.queued]
        .iter()
        .position(|section| section.stream == stream)
}

// The queue without the stream's oldest section: what follows moves up, and the place that falls free is cleared.
pub fn release(queue: &Queue, stream: u64) -> Option<Queue>
    ensures { stepped queue.now result ≡ releasing queue.now stream }
{
    if queue.queued > QUEUE_PLACES {
        return None;
    }
    let i = oldest_of(queue, stream)?;
    let last = queue.queued - 1;
    let mut next = *queue;
    // By a loop, from the queue that was lent: `copy_within` would have the archive for C need `memmove` from outside.
    for (k, &section) in queue.places[i + 1..queue.queued].iter().enumerate() {
        next.places[i + k] = section;
    }
    next.places[last] = NO_SECTION;
    next.queued = last;
    Some(next)
}
