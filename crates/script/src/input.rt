// A command from a script: its call, its table, its numbers and its strings.
ghost use Rattle.std.specs.Prelude.{◌<◌, ◌≤◌, IfOk, length};

use crate::bounds;
use crate::calls::Opcode;
use crate::faults::Fault;
use crate::opcodes::Shape;
use std::io::Read;

// How many bytes an arena has.
pub const ARENA: usize = 16640;

// How many bytes a string or a buffer has at the most.
pub const LONGEST: usize = 65536;

// How many bytes a number has.
const NUMBER: usize = 8;

// How many bytes the first string's buffer has: it is read with the second one's length.
const FIRST: usize = LONGEST + NUMBER;

// How many tables there are.
pub const TABLES: usize = 4;

// How many bytes a command's numbers and its first string's length have at the most.
const NUMBERS: usize = 104;

#[derive(Clone, Copy)]
pub struct Command<'a> {
    pub opcode: Opcode,
    // 0 where the call has none.
    pub table: usize,
    // How many bytes of the arena are lent: all, where the command does not say.
    pub lent: usize,
    // How long the output buffer is, and what fills it where there is one.
    pub room: usize,
    pub fill: Option<u8>,
    // The other numbers. Those that the command does not have mean nothing.
    pub numbers: [u64; 9],
    // The strings, empty where the command has none.
    pub name: &'a [u8],
    pub value: &'a [u8],
    ghost table_is_one: { table < 4 },
    ghost lent_fits: { lent ≤ 16640 },
}

// A script, and room for the strings of one command.
#[derive(Drop)]
pub struct Script<R: Read + Drop> {
    source: R,
    name: [u8; FIRST],
    value: [u8; LONGEST],
}

// Reads to a buffer's end, or to the first read that gives nothing or fails. What follows is left to the next reader.
fn read_full(source: &mut impl Read, buffer: &mut [u8]) -> usize
    ensures { result ≤ length buffer.new }
{
    let mut n = 0;
    // each turn goes on behind what it was given
    while n < buffer.len() {
        let Ok(more) = source.read(&mut buffer[n..]) else {
            break;
        };
        if more == 0 {
            break;
        }
        n += more;
    }
    n
}

// Reads a whole buffer.
fn read_all(source: &mut impl Read, buffer: &mut [u8]) -> Result<(), Fault> {
    if read_full(source, buffer) < buffer.len() {
        return Err(Fault::CutOff);
    }
    Ok(())
}

// How many bytes a string's length has, where there is one.
fn length_room(has: bool) -> usize
    ensures { result ≤ 8 }
{
    if has { NUMBER } else { 0 }
}

// Reads a string, and what stands behind it, to the front of a buffer.
fn read_text<'a, R: Read, const ROOM: usize>(
    source: &mut R,
    buffer: &'a mut [u8; ROOM],
    len: u64,
    behind: usize,
) -> Result<(&'a [u8], &'a [u8]), Fault>
    requires { behind ≤ 8 }
{
    let len = len as usize;
    if LONGEST < len {
        return Err(Fault::LongText);
    }
    let text = buffer.get_mut(..len + behind).ok_or(Fault::LongText)?;
    read_all(source, text)?;
    Ok(text.split_at(len))
}

// The number that begins at a place, 0 past the end.
fn number_at(bytes: &[u8], at: usize) -> u64 {
    let rest = bytes.get(at..).unwrap_or(&[]);
    rest.first_chunk()
        .map_or(0, |number| u64::from_le_bytes(*number))
}

// How many bytes of the arena are lent.
fn lent_of(shape: Shape, bytes: &[u8]) -> Result<usize, Fault>
    ensures { IfOk result (λ lent. lent ≤ 16640) }
{
    if !shape.arena {
        return Ok(ARENA);
    }
    let lent = number_at(bytes, 0) as usize;
    if ARENA < lent {
        return Err(Fault::LongArena);
    }
    Ok(lent)
}

// The output buffer's length, and the byte that fills it, where a command has one.
fn output_of(shape: Shape, bytes: &[u8]) -> Result<(usize, Option<u8>), Fault> {
    if !shape.out {
        return Ok((0, None));
    }
    let at = shape.out_at();
    let room = number_at(bytes, at) as usize;
    if LONGEST < room {
        return Err(Fault::LongBuffer);
    }
    let fill = (number_at(bytes, at + 8) & 0xff) as u8;
    Ok((room, Some(fill)))
}

// As many numbers as a command has, each of 8 bytes.
fn numbers_of(bytes: &[u8]) -> [u64; 9] {
    let mut numbers = [0; 9];
    for (number, bytes) in numbers.iter_mut().zip(bytes.chunks_exact(8)) {
        *number = number_at(bytes, 0);
    }
    numbers
}

impl<R: Read + Drop> Script<R> {
    pub fn new(source: R) -> Script<R> {
        Script {
            source,
            name: [0; FIRST],
            value: [0; LONGEST],
        }
    }

    // The next command; none at the script's end, which is where nothing more can be read.
    pub fn next_command(&mut self) -> Result<Option<Command<'_>>, Fault> {
        let mut head = [0; 2];
        match read_full(&mut self.source, &mut head) {
            0 => return Ok(None),
            1 => return Err(Fault::CutOff),
            _ => {}
        }
        let [number, table] = head;
        let shape = Shape::try_from(number)?;
        let table = if shape.opcode.has_table() {
            usize::from(table)
        } else {
            0
        };
        if TABLES <= table {
            return Err(Fault::WrongTable);
        }
        let command = self.rest_of(shape, table)?;
        bounds::check(&command)?;
        Ok(Some(command))
    }

    // A command's numbers and its strings.
    fn rest_of(&mut self, shape: Shape, table: usize) -> Result<Command<'_>, Fault>
        requires { table < 4 }
    {
        let Script {
            source,
            name,
            value,
        } = self;
        let mut bytes = [0; NUMBERS];
        let end = shape.numbers_end();
        read_all(source, &mut bytes[..end + length_room(0 < shape.strings)])?;
        let lent = lent_of(shape, &bytes)?;
        let (room, fill) = output_of(shape, &bytes)?;
        let numbers = numbers_of(&bytes[shape.others_at()..end]);
        if !shape.bound.holds(numbers[0]) {
            return Err(Fault::LargeNumber);
        }
        let (name, behind) = read_text(
            source,
            name,
            number_at(&bytes, end),
            length_room(1 < shape.strings),
        )?;
        let (value, _) = read_text(source, value, number_at(behind, 0), 0)?;
        Ok(Command {
            opcode: shape.opcode,
            table,
            lent,
            room,
            fill,
            numbers,
            name,
            value,
        })
    }
}
