// Calls on numbers, on the static table and on the address space.
use crate::kinds::{decoder_number, encoder_number, kind_of, line_number, refusal_of};
use crate::{low_byte, width};
use answers::Refusal;
use forms::{Form, Head};
use script::answer::Values;
use script::calls::LeafQuestion;
use script::input::Command;
use script::values;
use script::words::Word;
use static_table::Place;
use vas::VirtualAddressSpace;

fn found(index: Option<usize>) -> Values {
    match index {
        Some(index) => values![Word::Found, index],
        None => values![Word::NotFound],
    }
}

fn static_place(index: u64) -> Result<Values, Refusal> {
    let Place { start, name, value } = static_table::get(index)?;
    Ok(values![start, name, value])
}

fn form(kind: u64) -> Values {
    let Form {
        pattern,
        mask,
        width,
    } = forms::form_of(kind_of(kind));
    values![pattern, mask, width]
}

fn head(kind: u64, lowest: u64) -> Values {
    let Head { width, flags } = forms::head_of(kind_of(kind), lowest % 2 == 1);
    values![u64::from(width), flags]
}

// The five methods of the address space that two numbers are.
fn address(question: LeafQuestion, numbers: [u64; 9]) -> Result<Values, Refusal> {
    let [inserted, dropped, first, second, ..] = numbers.map(|number| number as usize);
    let space = VirtualAddressSpace { inserted, dropped };
    let position = match question {
        LeafQuestion::Relative => space.relative(first)?,
        LeafQuestion::RelativeBase => space.relative_base(first, second)?,
        LeafQuestion::PostBase => space.post_base(first, second)?,
        LeafQuestion::Index => space.index(first)?,
        _ => space.largest_ref(),
    };
    Ok(values![position])
}

pub fn ask(question: LeafQuestion, c: &Command) -> Result<Values, Refusal> {
    let [first, second, third, ..] = c.numbers;
    Ok(match question {
        LeafQuestion::IntSize => prefix_int::size(first, width(second))?.into(),
        LeafQuestion::IntOk => prefix_int::call_ok(width(first), low_byte(second)).into(),
        LeafQuestion::TextSize => {
            prefix_string::size(first as usize, width(second), low_byte(third))?.into()
        }
        LeafQuestion::TextOk => text_writing::call_ok(width(first), low_byte(second)).into(),
        LeafQuestion::StaticGet => static_place(first)?,
        LeafQuestion::StaticFind => found(static_table::find(c.name, c.value)),
        LeafQuestion::StaticFindName => found(static_table::find_name(c.name)),
        LeafQuestion::EncoderKind => { encoder_number(forms::encoder_kind(low_byte(first))).into() }
        LeafQuestion::DecoderKind => { decoder_number(forms::decoder_kind(low_byte(first))).into() }
        LeafQuestion::LineKind => line_number(forms::line_kind(low_byte(first))).into(),
        LeafQuestion::FormOf => form(first),
        LeafQuestion::HeadOf => head(first, second),
        LeafQuestion::PastLimit => stream_parts::past_limit(kind_of(first), second).into(),
        LeafQuestion::RefusalNumber => values![answers::number(refusal_of(first))],
        LeafQuestion::EndsEarly => answers::ends_early(refusal_of(first)).into(),
        _ => address(question, c.numbers)?,
    })
}
