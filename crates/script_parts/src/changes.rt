// Calls that give another part of a table, which is the table's from then on.
use dynamic::Table;
use ring::{Push, Source};
use script::answer::Values;
use script::calls::PartChange;
use script::input::Command;
use script::values;
use script::words::Word;
use tracking::Uses;

// Puts what a call gave in its place, and says whether it gave one.
fn put<T: Copy>(place: &mut T, given: Option<T>) -> Values {
    match given {
        Some(part) => {
            *place = part;
            Values::from(true)
        }
        None => Values::from(false),
    }
}

// Where a new entry's strings come from. A match on the script's number: the enum is the library's, and holds the position.
fn source_of(number: u64, position: usize) -> Source {
    match number {
        0 => Source::Given,
        1 => Source::CopyOf(position),
        _ => Source::NameOf(position),
    }
}

fn word_of(push: Push) -> Word {
    match push {
        Push::Made => Word::Made,
        Push::TooLarge => Word::TooLarge,
        Push::NoRoom => Word::NoRoom,
        Push::Full => Word::Full,
        Push::BadCall => Word::BadCall,
    }
}

fn push(c: &Command, table: &mut Table, arena: &mut [u8]) -> Values {
    let [source, position, low, ..] = c.numbers;
    let source = source_of(source, position as usize);
    let after = table
        .ring
        .push(arena, low as usize, source, c.name, c.value);
    table.ring = after.ring;
    values![word_of(after.push)]
}

// One more use of an entry in the open section.
fn note(table: &mut Table, offset: u64) -> Values {
    let noted = tracking::note(&table.section, (offset & 0xffff) as u16);
    if let Some(uses) = noted {
        table.section = call_parts::with_uses(&table.section, uses);
    }
    values![noted.is_some()]
}

// The open section with the uses of a place of the queue, 0 to 31.
fn with_uses(table: &mut Table, place: u64) -> Values {
    let queued = table.queue.places[(place % 32) as usize];
    let (used, uses) = (queued.used, queued.uses);
    table.section = call_parts::with_uses(&table.section, Uses { used, uses });
    Values::NONE
}

pub fn change(change: PartChange, c: &Command, table: &mut Table, arena: &mut [u8]) -> Values {
    let [first, second, ..] = c.numbers;
    let number = first as usize;
    match change {
        PartChange::RingPush => push(c, table, arena),
        PartChange::RingCut => {
            let cut = table.ring.cut(number, second as usize);
            put(&mut table.ring, cut)
        }
        PartChange::Note => note(table, first),
        PartChange::WithUses => with_uses(table, first),
        PartChange::QueuePush => {
            let pushed = tracking::push(&table.queue, &table.section);
            put(&mut table.queue, pushed)
        }
        PartChange::QueueRelease => {
            let released = tracking::release(&table.queue, first);
            put(&mut table.queue, released)
        }
        PartChange::Block => {
            let blocked = tracking::block(&table.waiting, number);
            put(&mut table.waiting, blocked)
        }
        PartChange::WaitingWith => {
            let blocked = call_parts::waiting_with(&table.waiting, table.known, number);
            put(&mut table.waiting, blocked)
        }
        PartChange::LetGo => {
            table.waiting = tracking::let_go(&table.waiting, number);
            Values::NONE
        }
    }
}
