// A script's call that sets a record's fields one by one, sound or not.
#![tactic(auto)]

use dynamic::Table;
use entries::SLOTS;
use model::{BLOCKED_VALUES, QUEUE_PLACES, SECTION_ENTRIES};
use script::bounds::{Field, field_of};
use script::faults::Fault;
use script::input::Command;

// Sets an element of a field. The index is below the field's count; a use of a queued section has its place in it, too. A slot and a use keep the low 16 bits.
fn set_field(t: &mut Table, field: Field, index: usize, value: u64) {
    let n = value as usize;
    let low = (value & 0xffff) as u16;
    let (slot, blocked, place) = (index % SLOTS, index % BLOCKED_VALUES, index % QUEUE_PLACES);
    let (entry, place_of_use) = (
        index % SECTION_ENTRIES,
        index / SECTION_ENTRIES % QUEUE_PLACES,
    );
    match field {
        Field::Inserted => t.ring.inserted = n,
        Field::Dropped => t.ring.dropped = n,
        Field::Size => t.ring.size = n,
        Field::Capacity => t.ring.capacity = n,
        Field::Tail => t.ring.tail = n,
        Field::Head => t.ring.head = n,
        Field::Starts => t.ring.starts[slot] = low,
        Field::Names => t.ring.names[slot] = low,
        Field::Values => t.ring.values[slot] = low,
        Field::Known => t.known = n,
        Field::Most => t.most = n,
        Field::Total => t.waiting.total = n,
        Field::Distinct => t.waiting.distinct = n,
        Field::Largest => t.waiting.values[blocked].largest = n,
        Field::Sections => t.waiting.values[blocked].sections = n,
        Field::Queued => t.queue.queued = n,
        Field::PlaceStream => t.queue.places[place].stream = value,
        Field::PlaceFrom => t.queue.places[place].from = n,
        Field::PlaceUsed => t.queue.places[place].used = n,
        Field::PlaceOffset => t.queue.places[place_of_use].uses[entry].offset = low,
        Field::PlaceCount => t.queue.places[place_of_use].uses[entry].count = low,
        Field::Active => t.active = value % 2 == 1,
        Field::Base => t.base = n,
        Field::OpenStream => t.section.stream = value,
        Field::OpenFrom => t.section.from = n,
        Field::OpenUsed => t.section.used = n,
        Field::OpenOffset => t.section.uses[entry].offset = low,
        Field::OpenCount => t.section.uses[entry].count = low,
    }
}

// Sets the field that a command names.
pub fn set(c: &Command, table: &mut Table) -> Result<(), Fault> {
    let [number, index, value, ..] = c.numbers;
    let field = field_of(number, index)?;
    set_field(table, field, index as usize, value);
    Ok(())
}
