// Why a script is not read on, and what is said of it.
ghost use Rattle.std.specs.Prelude.{◌≡◌};
ghost use Rattle.script.specs.declared.faults.Fault.TheVariants.{CutOff};

use std::error::Error;
use std::{fmt, io};

#[derive(Clone, Copy, PartialEq, Eq, Debug)]
pub enum Fault {
    CutOff,
    UnknownOpcode,
    WrongTable,
    LongArena,
    LongBuffer,
    LargeNumber,
    LongText,
    PastArena,
    PastField,
}

impl fmt::Display for Fault {
    fn fmt<W: fmt::Write>(&self, f: &mut fmt::Formatter<W>) -> fmt::Result {
        f.write_str(match self {
            Fault::CutOff => "the script ends inside a command",
            Fault::UnknownOpcode => "no such opcode",
            Fault::WrongTable => "a table is 0 to 3",
            Fault::LongArena => "an arena has at most 16640 bytes",
            Fault::LongBuffer => "a buffer has at most 65536 bytes",
            Fault::LargeNumber => "the first number is out of range",
            Fault::LongText => "a string has at most 65536 bytes",
            Fault::PastArena => "the arena ends at 16640",
            Fault::PastField => "no such element of the field",
        })
    }
}

impl Error for Fault {}

// Bytes that cannot be read are not there.
impl From<io::Error> for Fault {
    ghost from_gives = { λ _ fault. fault ≡ CutOff };

    fn from(_why: io::Error) -> Fault {
        Fault::CutOff
    }
}

#[cfg(test)]
mod tests {
    use super::*;
    use std::io::ErrorKind;

    #[test]
    fn bytes_that_cannot_be_read_are_not_there(rt: HostRuntime) {
        for kind in [ErrorKind::UnexpectedEof, ErrorKind::BrokenPipe] {
            assert_eq!(rt; Fault::from(io::Error::from(kind)), Fault::CutOff);
        }
    }
}
