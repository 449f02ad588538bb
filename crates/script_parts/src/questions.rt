// Calls on the parts of a table that change nothing.
use dynamic::Table;
use entries::{Room, Slots};
use script::answer::Values;
use script::calls::PartQuestion;
use script::input::Command;
use script::values;
use script::words::Word;

// Whether every use is of a live entry, and the lowest that is used; the number handed in where not.
fn floor(low: Option<usize>, given: usize) -> Values {
    values![low.is_some(), low.unwrap_or(given)]
}

fn room(room: Room) -> Values {
    values![room.made, room.count, room.size, room.tail]
}

fn latest(position: Option<usize>) -> Values {
    match position {
        Some(position) => values![Word::At, position],
        None => values![Word::Nothing],
    }
}

// The value that is looked for, where the whole field is.
fn value_of<'a>(c: &Command<'a>, whole: usize) -> Option<&'a [u8]> {
    if whole % 2 == 1 { Some(c.value) } else { None }
}

pub fn ask(question: PartQuestion, c: &Command, table: &Table, arena: &[u8]) -> Values {
    let (ring, section, queue) = (&table.ring, &table.section, &table.queue);
    let slots = Slots {
        starts: &ring.starts,
        names: &ring.names,
        values: &ring.values,
    };
    let [a, b, third, d, e, f, ..] = c.numbers.map(|number| number as usize);
    match question {
        PartQuestion::EntriesCheck => slots.check(a, b, third, d, e, f).into(),
        PartQuestion::EntriesFewest => room(slots.fewest(a, b, third, d, e, f)),
        PartQuestion::EntriesNewest => {
            latest(slots.newest(arena, a, b, c.name, value_of(c, third)))
        }
        PartQuestion::RingSound => ring.sound().into(),
        PartQuestion::RingRoom => room(ring.room(a, b, third)),
        PartQuestion::RingNewest => latest(ring.newest(arena, a, c.name, value_of(c, b))),
        PartQuestion::SectionFloor => {
            floor(tracking::section_floor(section, a, b, third), third)
        }
        PartQuestion::QueueFloor => floor(tracking::queue_floor(queue, a, b, third), third),
        PartQuestion::OpenFloor => floor(
            call_parts::open_floor(table.active, table.base, section, a, b, third),
            third,
        ),
        PartQuestion::WaitingOk => tracking::waiting_ok(&table.waiting).into(),
    }
}
