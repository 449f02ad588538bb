// What the calls on a dynamic table are made of, over its parts: no call hands the whole record here.
#![tactic(auto)]

ghost use Rattle.std.specs.Prelude.{◌≡◌, Some};
ghost use Rattle.blocked.specs.Waiting.{counted};
ghost use Rattle.model.specs.Section.{lookup_of};
ghost use Rattle.tracking.specs.Queue.{floored};
ghost use Rattle.tracking.specs.Uses.{noted};
ghost use Rattle.call_parts.specs.Parts.{tested, capacity_answer, push_reply, open_floor, counted_with, with_uses};

use answers::{Lookup, Refusal};
use arena::RING;
use blocked::Waiting;
use entries::SLOTS;
use model::LARGEST_CAPACITY;
use ring::Push;
use tracking::{Section, Uses};

// Whether a capacity is one that a table can have.
pub fn capacity_test(capacity: usize) -> Result<(), Refusal>
    ensures { tested result ≡ capacity_answer capacity }
{
    if LARGEST_CAPACITY < capacity {
        return Err(Refusal::MaximumTableSizeTooLarge);
    }
    if RING < capacity {
        return Err(Refusal::AboveLentRoom);
    }
    Ok(())
}

// What a put answers for what the push did.
pub fn push_reply(capacity: usize, push: Push) -> Result<(), Refusal>
    ensures { result ≡ push_reply capacity push }
{
    match push {
        Push::Made => Ok(()),
        Push::TooLarge => {
            if capacity == 0 {
                return Ok(());
            }
            Err(Refusal::MaxTableSizeReached)
        }
        Push::NoRoom => Ok(()),
        Push::Full => Err(Refusal::CountTooLarge),
        Push::BadCall => Err(Refusal::BadCall),
    }
}

// The lowest entry that an open section or a queued one uses; none where the open one breaks its rules.
// The flag stands beside the section and its base as in the record of a table, whose layout C knows.
pub fn open_floor(
    active: bool,
    base: usize,
    section: &Section,
    dropped: usize,
    inserted: usize,
    low: usize,
) -> Option<usize>
    ensures { floored low result ≡ open_floor active base section.now dropped inserted low }
{
    if !active {
        return Some(low);
    }
    let floor = tracking::section_floor(section, dropped, inserted, low)?;
    if inserted < base {
        return None;
    }
    let from = section.from;
    if dropped < from {
        return None;
    }
    // No entry stands above the section's first number, so none is missing.
    if inserted <= from {
        return Some(floor);
    }
    if SLOTS + section.used < inserted - from {
        return None;
    }
    Some(floor)
}

// How an entry is named in a section: below its base, or above it.
pub fn lookup_of(base: usize, absolute: usize) -> Lookup
    ensures { result ≡ lookup_of base absolute }
{
    if absolute <= base {
        return Lookup::Relative {
            index: base - absolute,
            absolute,
        };
    }
    Lookup::PostBase {
        index: absolute - base - 1,
        absolute,
    }
}

// A section with other uses.
pub fn with_uses(section: &Section, uses: Uses) -> Section
    ensures { result ≡ with_uses section.now (noted section.now.uses section.now.used (Some uses)) }
{
    let Uses { used, uses } = uses;
    Section {
        used,
        uses,
        ..*section
    }
}

// The blocked sections with a committed one, if its largest reference is above the known received count; none where a bound would be passed.
pub fn waiting_with(waiting: &Waiting, known: usize, largest: usize) -> Option<Waiting>
    ensures { counted waiting.now result ≡ counted_with waiting.now known largest }
{
    if largest <= known {
        return Some(*waiting);
    }
    tracking::block(waiting, largest)
}
