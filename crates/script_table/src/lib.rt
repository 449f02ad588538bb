// A script's calls on a table, and those of sections without one.
#![tactic(auto)]

mod section;
mod step;

use answers::Refusal;
use dynamic::{Replied, Table};
use ring::Push;
use script::answer::{Answer, Values};
use script::calls::{SectionCall, StatelessCall, TableCall};
use script::input::Command;
use script::values;
use std::io;
use std::io::Write;

// The table after a reply.
fn replied(table: &mut Table, after: Replied) -> Answer {
    *table = after.table;
    Answer::from(after.reply)
}

fn find(table: &mut Table, c: &Command, arena: &[u8]) -> Answer {
    let after = table.find(arena, c.name, c.value);
    *table = after.table;
    Answer::from(after.found)
}

fn insert(table: &mut Table, c: &Command, arena: &mut [u8]) -> Answer {
    let after = table.insert(arena, c.name, c.value);
    *table = after.table;
    Answer::from(after.inserted)
}

// Whether the record keeps its rules, and the lowest entry that is used; 0 where it does not.
fn checked(table: &Table) -> Values {
    let low = table.checked();
    values![low.is_some(), low.unwrap_or(0)]
}

fn on_encoder_recv(table: &mut Table, c: &Command, arena: &mut [u8], buffer: &mut [u8]) -> Answer {
    let after = encoder_stream::on_encoder_recv(*table, arena, c.name, buffer);
    *table = after.table;
    Answer {
        reply: after.reply,
        values: values![after.consumed, after.inserted, after.written],
    }
}

fn on_decoder_recv(table: &mut Table, c: &Command) -> Answer {
    let after = decoder_stream::on_decoder_recv(*table, c.name);
    *table = after.table;
    Answer {
        reply: after.reply,
        values: values![after.consumed],
    }
}

// Makes a call on a table, which is then the one after it.
pub fn call(
    call: TableCall,
    c: &Command,
    table: &mut Table,
    arena: &mut [u8],
    buffer: &mut [u8],
) -> Answer {
    let number = c.numbers[0];
    let n = number as usize;
    match call {
        TableCall::Fresh => {
            *table = Table::fresh();
            Answer::DONE
        }
        TableCall::SetCapacity => replied(table, table.set_capacity(n)),
        TableCall::SetMaxBlocked => replied(table, table.set_max_blocked(n)),
        TableCall::Put => replied(table, table.put(arena, c.name, c.value)),
        TableCall::Begin => replied(table, table.begin(number)),
        TableCall::Find => find(table, c, arena),
        TableCall::Insert => insert(table, c, arena),
        TableCall::Commit => replied(table, table.commit(n)),
        TableCall::Abandon => replied(table, table.abandon()),
        TableCall::Acknowledge => replied(table, table.acknowledge(number)),
        TableCall::Cancel => replied(table, table.cancel(number)),
        TableCall::Increment => replied(table, table.increment(n)),
        TableCall::Checked => Answer::from(Ok(checked(table))),
        TableCall::OnEncoderRecv => on_encoder_recv(table, c, arena, buffer),
        TableCall::OnDecoderRecv => on_decoder_recv(table, c),
    }
}

// A section, its prefix, or one step of it, on a table.
pub fn on_section<W: Write>(
    call: SectionCall,
    c: &Command,
    table: &Table,
    arena: &[u8],
    buffer: &mut [u8],
    out: &mut W,
) -> io::Result<()> {
    match call {
        SectionCall::Whole => section::on_table(c, table, arena, buffer, out),
        SectionCall::Listed => section::decode_header(c, table, arena, buffer, out),
        SectionCall::Begin => write!(out, "{}", step::begin_on(c, table, arena)),
        SectionCall::Line => write!(out, "{}", step::line_on(c, table, arena, buffer)),
        SectionCall::Next => write!(out, "{}", step::on_table(c, table, arena, buffer)),
    }
}

// A section, one step of it or the cursor before it, without a table.
pub fn stateless<W: Write>(
    call: StatelessCall,
    c: &Command,
    buffer: &mut [u8],
    out: &mut W,
) -> io::Result<()> {
    match call {
        StatelessCall::Whole => section::stateless(c, buffer, out),
        StatelessCall::Listed => section::decode_stateless(c, buffer, out),
        StatelessCall::Begin => write!(out, "{}", step::begin()),
        StatelessCall::Next => write!(out, "{}", step::stateless(c, buffer)),
    }
}

// Whether a table may have a capacity.
pub fn capacity(c: &Command) -> Result<(), Refusal> {
    dynamic::capacity_test(c.numbers[0] as usize)
}

// How an entry is named in a section.
pub fn lookup_of(c: &Command) -> Values {
    let [base, absolute, ..] = c.numbers;
    Values::from(call_parts::lookup_of(base as usize, absolute as usize))
}

// What a push did, by number.
static PUSHES: [Push; 5] = [
    Push::Made,
    Push::TooLarge,
    Push::NoRoom,
    Push::Full,
    Push::BadCall,
];

// The reply to what a push did.
pub fn push_reply(c: &Command) -> Result<(), Refusal> {
    let [push, capacity, ..] = c.numbers;
    dynamic::push_reply(capacity as usize, PUSHES[(push % 5) as usize])
}
