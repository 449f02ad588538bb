// Bytes and lists as answers show them.
use std::fmt;

// Bytes, two digits each.
#[derive(Clone, Copy)]
pub struct Hex<'a>(pub &'a [u8]);

impl fmt::Display for Hex<'_> {
    fn fmt<W: fmt::Write>(&self, f: &mut fmt::Formatter<W>) -> fmt::Result {
        for byte in self.0 {
            write!(f, "{byte:02x}")?;
        }
        Ok(())
    }
}

// A list without the filling at its end.
#[derive(Drop)]
pub struct Trimmed<'a, T> {
    pub kept: &'a [T],
    pub rest: Rest,
}

// How many elements of the filling follow.
#[derive(Clone, Copy)]
pub struct Rest(pub usize);

impl<'a, T: PartialEq> Trimmed<'a, T> {
    pub fn new(list: &'a [T], filling: &T) -> Trimmed<'a, T> {
        let (kept, rest) = match list.iter().rposition(|element| element != filling) {
            Some(last) => list.split_at(last + 1),
            None => list.split_at(0),
        };
        Trimmed {
            kept,
            rest: Rest(rest.len()),
        }
    }
}

impl fmt::Display for Rest {
    fn fmt<W: fmt::Write>(&self, f: &mut fmt::Formatter<W>) -> fmt::Result {
        match self.0 {
            0 => Ok(()),
            rest => write!(f, " +{rest}"),
        }
    }
}

// A buffer, and what filled it before it was written to. With no filling there is none to show.
#[derive(Clone, Copy)]
pub struct Buffer<'a> {
    pub bytes: &'a [u8],
    pub fill: Option<u8>,
}

impl fmt::Display for Buffer<'_> {
    fn fmt<W: fmt::Write>(&self, f: &mut fmt::Formatter<W>) -> fmt::Result {
        match self.fill {
            None => Ok(()),
            Some(fill) => {
                let shown = Trimmed::new(self.bytes, &fill);
                write!(f, " 0x{}{}", Hex(shown.kept), shown.rest)
            }
        }
    }
}
