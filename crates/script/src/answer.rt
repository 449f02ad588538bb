// An answer: the number of its refusal, or 0, and the words and numbers after it.
use crate::words::Word;
use answers::{Insertion, Lookup, Refusal};
use std::fmt;

// How many words and numbers follow at the most.
const MOST: usize = 16;

#[derive(Clone, Copy)]
pub enum Part {
    Word(Word),
    Number(u64),
}

impl From<Word> for Part {
    fn from(word: Word) -> Part {
        Part::Word(word)
    }
}

impl From<u64> for Part {
    fn from(number: u64) -> Part {
        Part::Number(number)
    }
}

impl From<usize> for Part {
    fn from(number: usize) -> Part {
        Part::Number(number as u64)
    }
}

impl From<u8> for Part {
    fn from(number: u8) -> Part {
        Part::Number(u64::from(number))
    }
}

// Truth is 1, falsehood is 0.
impl From<bool> for Part {
    fn from(truth: bool) -> Part {
        Part::Number(u64::from(truth))
    }
}

impl fmt::Display for Part {
    fn fmt<W: fmt::Write>(&self, f: &mut fmt::Formatter<W>) -> fmt::Result {
        match self {
            Part::Word(word) => write!(f, "{word}"),
            Part::Number(number) => write!(f, "{number}"),
        }
    }
}

// The values of some words and numbers.
#[macro_export]
macro_rules! values {
    ($($part:expr),*) => {
        $crate::answer::Values::from([$($crate::answer::Part::from($part)),*])
    };
}

// Words and numbers, in a fixed room: so an answer needs no memory, which could run out.
#[derive(Clone, Copy)]
pub struct Values([Option<Part>; MOST]);

impl Values {
    pub const NONE: Values = Values([None; MOST]);

    // The values with a word before them.
    fn after(self, word: Word) -> Values {
        let mut parts = [None; MOST];
        parts[0] = Some(Part::Word(word));
        for (place, part) in parts.iter_mut().skip(1).zip(self.0) {
            *place = part;
        }
        Values(parts)
    }
}

impl<const N: usize> From<[Part; N]> for Values {
    fn from(given: [Part; N]) -> Values {
        let mut parts = [None; MOST];
        for (place, part) in parts.iter_mut().zip(given.iter()) {
            *place = Some(*part);
        }
        Values(parts)
    }
}

impl From<()> for Values {
    fn from(_none: ()) -> Values {
        Values::NONE
    }
}

impl From<usize> for Values {
    fn from(number: usize) -> Values {
        values![number]
    }
}

impl From<bool> for Values {
    fn from(truth: bool) -> Values {
        values![truth]
    }
}

impl From<Lookup> for Values {
    fn from(found: Lookup) -> Values {
        match found {
            Lookup::Static(index) => values![Word::Static, index],
            Lookup::Relative { index, absolute } => values![Word::Relative, index, absolute],
            Lookup::PostBase { index, absolute } => values![Word::PostBase, index, absolute],
            Lookup::NotFound => values![Word::NotFound],
        }
    }
}

impl From<Insertion> for Values {
    fn from(insertion: Insertion) -> Values {
        match insertion {
            Insertion::Inserted { postbase, absolute } => {
                values![Word::Inserted, postbase, absolute]
            }
            Insertion::Duplicated {
                relative,
                postbase,
                absolute,
            } => values![Word::Duplicated, relative, postbase, absolute],
            Insertion::InsertedWithNameRef {
                postbase,
                relative,
                absolute,
            } => values![Word::WithName, postbase, relative, absolute],
            Insertion::InsertedWithStaticNameRef {
                postbase,
                index,
                absolute,
            } => values![Word::WithStaticName, postbase, index, absolute],
            Insertion::NotInserted(found) => Values::from(found).after(Word::NotInserted),
        }
    }
}

// Each one has a space before it.
impl fmt::Display for Values {
    fn fmt<W: fmt::Write>(&self, f: &mut fmt::Formatter<W>) -> fmt::Result {
        for part in self.0.iter().flatten() {
            write!(f, " {part}")?;
        }
        Ok(())
    }
}

#[derive(Clone, Copy)]
pub struct Answer {
    pub reply: Result<(), Refusal>,
    pub values: Values,
}

impl Answer {
    pub const DONE: Answer = Answer {
        reply: Ok(()),
        values: Values::NONE,
    };
}

// A refusal has no values.
impl<V: Into<Values>> From<Result<V, Refusal>> for Answer {
    fn from(answer: Result<V, Refusal>) -> Answer {
        match answer {
            Ok(values) => Answer {
                reply: Ok(()),
                values: values.into(),
            },
            Err(why) => Answer {
                reply: Err(why),
                values: Values::NONE,
            },
        }
    }
}

impl fmt::Display for Answer {
    fn fmt<W: fmt::Write>(&self, f: &mut fmt::Formatter<W>) -> fmt::Result {
        let number = match self.reply {
            Ok(()) => 0,
            Err(why) => answers::number(why),
        };
        write!(f, "{number}{}", self.values)
    }
}
