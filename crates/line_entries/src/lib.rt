// The entry that a reference of a line names, on a table and with none: where its name and its value stand.
#![tactic(auto)]

ghost use Rattle.std.specs.Prelude.{◌≡◌, List, ℕ, ◌-◌, ◌<◌, get_or};
ghost use Rattle.ring.specs.Ring.{fields_of};
ghost use Rattle.static_table.specs.Static.{no_field};
ghost use Rattle.line_entries.specs.Entry.{entry_on, entry_static, entry_field, entry_read, EntryInside, EntryFixed, TextInside, static_field, live_of};

use answers::Refusal;
use entries::SLOTS;
use line_writing::Reference;
use ring::Ring;
use vas::VirtualAddressSpace;

// Where a string stands: in the section, in the static table's bytes, or in the arena.
#[derive(Clone, Copy)]
pub enum Text {
    Input { start: usize, len: usize },
    Fixed { start: usize, len: usize },
    Stored { start: usize, len: usize },
}

// An entry's name and value.
#[derive(Clone, Copy)]
pub struct Entry {
    pub name: Text,
    pub value: Text,
}

// An entry of the static table.
pub fn static_entry(index: u64) -> Result<Entry, Refusal>
    ensures by_index { (a : List ℕ) → entry_read a result ≡ static_field index }
    ensures entry_inside { EntryInside result }
    ensures entry_fixed { EntryFixed result }
{
    let place = static_table::get(index)?;
    Ok(Entry {
        name: Text::Fixed {
            start: place.start,
            len: place.name,
        },
        value: Text::Fixed {
            start: place.start + place.name,
            len: place.value,
        },
    })
}

// The live entry at a position.
fn live_entry(ring: &Ring, position: usize) -> Entry
    requires { position < ring.now.inserted - ring.now.dropped }
    ensures by_index { (a : List ℕ) → entry_field a result ≡ get_or (fields_of ring.now a) position no_field }
    ensures name_inside { TextInside 0 result.name }
    ensures value_inside { TextInside 0 result.value }
{
    // Read for its range: with it the sum does not wrap.
    let _inserted = ring.inserted;
    let i = (ring.dropped + position) % SLOTS;
    let start = usize::from(ring.starts[i]);
    let name = usize::from(ring.names[i]);
    let value = usize::from(ring.values[i]);
    Entry {
        name: Text::Stored { start, len: name },
        value: Text::Stored {
            start: start + name,
            len: value,
        },
    }
}

// The entry that a reference names, on the entries of a ring and with a base.
pub fn entry_on(ring: &Ring, base: usize, entry: Reference) -> Result<Entry, Refusal>
    ensures by_index { (a : List ℕ) → entry_read a result ≡ entry_on (live_of ring.now a) base entry }
    ensures entry_inside { EntryInside result }
{
    let live = VirtualAddressSpace {
        inserted: ring.inserted,
        dropped: ring.dropped,
    };
    match entry {
        Reference::Static(i) => static_entry(i),
        Reference::Relative(i) => {
            let position = live.relative_base(base, i as usize)?;
            Ok(live_entry(ring, position))
        }
        Reference::PostBase(i) => {
            let position = live.post_base(base, i as usize)?;
            Ok(live_entry(ring, position))
        }
    }
}

// The entry that a reference names, with no table.
pub fn entry_static(entry: Reference) -> Result<Entry, Refusal>
    ensures by_index { (a : List ℕ) → entry_read a result ≡ entry_static entry }
    ensures entry_inside { EntryInside result }
    ensures entry_fixed { EntryFixed result }
{
    match entry {
        Reference::Static(i) => static_entry(i),
        Reference::Relative(_) => Err(Refusal::MissingRefs),
        Reference::PostBase(_) => Err(Refusal::MissingRefs),
    }
}
