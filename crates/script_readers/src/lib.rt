// A script's calls of the readers: instructions, reports, prefixes and field lines.
#![tactic(auto)]

mod fields;

use answers::Refusal;
use decoder_stream::Report;
pub use fields::read_on;
use header_prefix::Prefix;
use instructions::Parsed;
use running::Whole;
use script::answer::Values;
use script::calls::ReadCall;
use script::input::Command;
use script::values;
use script::words::Word;
use script_leaves::cut_or;
use script_leaves::kinds::reference_of;

fn report(read: Whole<Report>) -> Values {
    let next = read.next;
    match read.instruction {
        Report::Acknowledgement(stream) => values![Word::Acknowledge, stream, next],
        Report::Cancellation(stream) => values![Word::Cancel, stream, next],
        Report::Increment(inserts) => values![Word::Increment, inserts, next],
    }
}

fn instruction(read: Whole<Parsed>) -> Values {
    let next = read.next;
    match read.instruction {
        Parsed::Duplicate(index) => values![Word::Duplicate, index, next],
        Parsed::Capacity(capacity) => values![Word::Capacity, capacity, next],
        Parsed::Literal {
            name,
            name_len,
            value,
            value_len,
        } => values![Word::Literal, name, name_len, value, value_len, next],
        Parsed::NameRef {
            is_static,
            index,
            value,
            value_len,
        } => values![Word::NameRef, is_static, index, value, value_len, next],
    }
}

fn prefix(read: Prefix) -> Values {
    values![read.required, read.base, read.next]
}

// A reader's call that needs no table.
pub fn read(reader: ReadCall, c: &Command) -> Result<Values, Refusal> {
    let s = c.name;
    let [first, second, third, ..] = c.numbers;
    let at = first as usize;
    Ok(match reader {
        ReadCall::Report => cut_or(decoder_stream::read_report(s, at)?.map(report)),
        ReadCall::Instruction => { cut_or(instructions::read_instruction(s, at)?.map(instruction)) }
        ReadCall::Prefix => {
            prefix(header_prefix::read_prefix(s, at, second as usize, third as usize)?)
        }
        ReadCall::LineStatic => fields::field(field_lines::read_static(s, at)?),
        ReadCall::StaticEntry => fields::entry(field_lines::static_entry(first)?),
        ReadCall::EntryStatic => {
            fields::entry(field_lines::entry_static(reference_of(first, second))?)
        }
    })
}
