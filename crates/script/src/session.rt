// A whole script: each command's call is made, and its answer written on a line.
ghost use Rattle.std.specs.Prelude.{◌≡◌};
ghost use Rattle.std.specs.IoError.{error_kind};
ghost use Rattle.std.specs.declared.io.ErrorKind.TheVariants.{OutOfMemory};
ghost use Rattle.script.specs.declared.session.Stop.TheVariants.{NoOutput};

use crate::faults::Fault;
use crate::input::{Command, LONGEST, Script};
use crate::line::Line;
use crate::text::Buffer;
use std::alloc::{AllocError, Global};
use std::io;
use std::io::{BufRead, Read, Write};

// Why a command has no answer.
#[derive(Drop)]
pub enum Stop {
    BadInput(Fault),
    NoOutput(io::Error),
}

impl From<Fault> for Stop {
    fn from(fault: Fault) -> Stop {
        Stop::BadInput(fault)
    }
}

impl From<io::Error> for Stop {
    fn from(why: io::Error) -> Stop {
        Stop::NoOutput(why)
    }
}

impl From<AllocError> for Stop {
    ghost from_gives = { λ _ stop. (why : _) × (stop ≡ NoOutput why) × (error_kind why ≡ OutOfMemory) };

    fn from(why: AllocError) -> Stop {
        Stop::NoOutput(io::Error::from(why))
    }
}

// What makes a command's call. It writes the answer but for the output buffer, which it is lent.
pub trait Calls {
    fn make<W: Write>(&mut self, c: &Command, buffer: &mut [u8], out: &mut W) -> Result<(), Stop>;
}

// Answers the next command, so that who sent it can read the line; false at the script's end.
fn answer_next<R: Read + Drop, C: Calls, W: Write>(
    script: &mut Script<R>,
    buffer: &mut [u8; LONGEST],
    calls: &mut C,
    out: &mut W,
) -> Result<bool, Stop> {
    let Some(command) = script.next_command()? else {
        return Ok(false);
    };
    let buffer = &mut buffer[..command.room.min(LONGEST)];
    buffer.fill(command.fill.unwrap_or(0));
    calls.make(&command, buffer, out)?;
    let shown = Buffer {
        bytes: buffer,
        fill: command.fill,
    };
    writeln!(out, "{shown}")?;
    out.flush()?;
    Ok(true)
}

// Answers a script's commands, up to its end or to the first one that is bad. Where an answer cannot be made or written, it
// stops and says why. No memory is asked of the allocator. The count is only there so that the loop ends.
pub fn run<R: BufRead + Drop, C: Calls, W: Write>(
    alloc: Global,
    source: R,
    calls: &mut C,
    out: &mut W,
) -> io::Result<()> {
    let mut script = Script::new(source);
    let mut buffer = [0; LONGEST];
    for at in 1..u64::MAX {
        match answer_next(&mut script, &mut buffer, calls, out) {
            Ok(true) => {}
            Ok(false) => break,
            Err(Stop::BadInput(fault)) => {
                writeln!(out, "bad input in command {at}: {fault}")?;
                break;
            }
            Err(Stop::NoOutput(why)) => return Err(why),
        }
    }
    out.flush()
}

// The same, but what cannot be made or written is passed over.
pub fn run_to_end<R: Read + Drop, C: Calls, W: Write + Drop>(source: R, calls: &mut C, to: W) {
    let mut script = Script::new(source);
    let mut buffer = [0; LONGEST];
    let mut out = Line::new(to);
    for at in 1..u64::MAX {
        match answer_next(&mut script, &mut buffer, calls, &mut out) {
            Ok(true) => {}
            Ok(false) => break,
            Err(Stop::BadInput(fault)) => {
                let _ = writeln!(out, "bad input in command {at}: {fault}");
                break;
            }
            // passed over, as a write that fails
            Err(Stop::NoOutput(_)) => {}
        }
    }
    out.hand_on();
}

#[cfg(test)]
mod tests {
    use super::*;
    use std::io::ErrorKind;
    use std::test::Fail;

    // Two commands on the first table: a section is opened, and abandoned.
    const TWO: [u8; 12] = [4, 0, 9, 0, 0, 0, 0, 0, 0, 0, 8, 0];

    // Takes so many bytes, and fails at a write that is longer than what is left.
    #[derive(Drop)]
    struct Room(usize);

    impl Write for Room {
        fn write(&mut self, bytes: &[u8]) -> io::Result<usize> {
            if self.0 < bytes.len() {
                return Err(io::Error::from(ErrorKind::BrokenPipe));
            }
            self.0 -= bytes.len();
            Ok(bytes.len())
        }

        fn flush(&mut self) -> io::Result<()> {
            Ok(())
        }
    }

    // Answers each command with its number in the script.
    #[derive(Drop)]
    struct Numbers(u8);

    impl Calls for Numbers {
        fn make<W: Write>(
            &mut self,
            _c: &Command,
            _buffer: &mut [u8],
            out: &mut W,
        ) -> Result<(), Stop> {
            self.0 = self.0.saturating_add(1);
            write!(out, "{}", self.0)?;
            Ok(())
        }
    }

    #[test]
    fn a_script_is_answered_up_to_what_cannot_be_written(rt: HostRuntime) {
        // the room for the answers, how many calls are made, and whether all is written
        for (room, made, whole) in [(4, 2, true), (3, 2, false), (1, 1, false), (0, 1, false)] {
            let mut calls = Numbers(0);
            let written = run(rt.alloc(), TWO.as_slice(), &mut calls, &mut Room(room));
            assert_eq!(rt; calls.0, made, "with room for {room}");
            match written {
                Ok(()) => assert!(rt; whole, "with room for {room}"),
                Err(why) => {
                    assert!(rt; !whole, "with room for {room}");
                    assert_eq!(rt; why.kind(), ErrorKind::BrokenPipe);
                }
            }
        }
    }

    #[test]
    fn the_answers_and_bad_input_are_written(rt: HostRuntime) -> Result<(), Fail> {
        let mut out = Vec::new(rt.alloc());
        run(rt.alloc(), TWO.as_slice(), &mut Numbers(0), &mut out)?;
        run(rt.alloc(), &TWO[..11], &mut Numbers(0), &mut out)?;
        let lines = "1\n2\n1\nbad input in command 2: the script ends inside a command\n";
        assert_eq!(rt; out.as_slice(), lines.as_bytes());
        Ok(())
    }

    #[test]
    fn what_cannot_be_written_is_passed_over(rt: HostRuntime) {
        let mut calls = Numbers(0);
        run_to_end(TWO.as_slice(), &mut calls, Room(1));
        assert_eq!(rt; calls.0, 2);
    }

    #[test]
    fn no_memory_is_no_output(rt: HostRuntime) {
        match Stop::from(AllocError) {
            Stop::NoOutput(why) => assert_eq!(rt; why.kind(), ErrorKind::OutOfMemory),
            Stop::BadInput(fault) => assert!(rt; false, "{fault}"),
        }
    }
}
