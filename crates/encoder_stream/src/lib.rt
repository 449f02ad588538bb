// A call on the encoder stream, RFC 9204 4.3: its instructions, read and applied in their order, and the increment that answers them.
#![tactic(auto)]

ghost use Rattle.std.specs.Prelude.{Err, ◌≡◌, true, false, List, ℕ, ◌-◌, ◌≤◌, length};
ghost use Rattle.answers.specs.Answer.{answered};
ghost use Rattle.answers.specs.Table.{replied};
ghost use Rattle.vas.specs.Vas.{relative_at};
ghost use Rattle.running.specs.Run.{run_all};
ghost use Rattle.instructions.specs.Instruction as spec-instruction;
ghost use Rattle.instructions.specs.Instruction.{instruction_at, parsed, Inside};
ghost use Rattle.encoder_stream.specs.Entries.{holding, took, pushed, applied};
ghost use Rattle.encoder_stream.specs.Stream.{increment_room, incremented, told, Tells, ran_to, Receives};

use answers::Refusal;
use arena::RING;
use dynamic::Table;
use forms::{DecoderInstruction, Kind};
use instructions::Parsed;
use ring::{Ring, Source};
use vas::VirtualAddressSpace;

// A table, how many bytes were consumed, the total inserted, how many bytes were written, and the call's answer.
#[derive(Clone, Copy)]
pub struct Received {
    pub table: Table,
    pub consumed: usize,
    pub inserted: usize,
    pub written: usize,
    pub reply: Result<(), Refusal>,
}

// How many bytes a call's instructions consumed, and their answer.
#[derive(Clone, Copy)]
struct Ran {
    consumed: usize,
    reply: Result<(), Refusal>,
}

// The most inserts that one increment tells.
const MOST_INSERTS: usize = 255;

// How many bytes an increment may take.
pub const INCREMENT_ROOM: usize = 3;

// How long the longest name of the static table is.
const LONGEST_NAME: usize = 32;

// One more entry, where it can be made.
fn push(
    ring: &mut Ring,
    arena: &mut [u8],
    low: usize,
    source: Source,
    name: &[u8],
    value: &[u8],
) -> Result<(), Refusal>
    ensures { took ring.new result arena.new ≡ pushed low (holding ring.old arena.old) source name.now value.now }
{
    let capacity = ring.capacity;
    let pushed = ring.push(arena, low, source, name, value);
    *ring = pushed.ring;
    dynamic::push_reply(capacity, pushed.push)
}

// The live entry that an index names, by its position.
fn locate(ring: &Ring, index: usize) -> Result<usize, Refusal>
    ensures { answered result ≡ relative_at ring.now.inserted ring.now.dropped index }
{
    let live = VirtualAddressSpace {
        inserted: ring.inserted,
        dropped: ring.dropped,
    };
    live.relative(index)
}

// A duplicate of a live entry.
fn duplicate(ring: &mut Ring, arena: &mut [u8], low: usize, index: usize) -> Result<(), Refusal>
    ensures { took ring.new result arena.new ≡ applied low (holding ring.old arena.old) (spec-instruction.duplicate index) }
{
    let position = locate(ring, index)?;
    push(ring, arena, low, Source::CopyOf(position), &[], &[])
}

// A value under the name of a live entry.
fn insert_named(
    ring: &mut Ring,
    arena: &mut [u8],
    low: usize,
    index: usize,
    value: &[u8],
) -> Result<(), Refusal>
    ensures { took ring.new result arena.new ≡ applied low (holding ring.old arena.old) (spec-instruction.name_ref false index value.now) }
{
    let position = locate(ring, index)?;
    push(ring, arena, low, Source::NameOf(position), &[], value)
}

// A value under a name of the static table.
fn insert_static(
    ring: &mut Ring,
    arena: &mut [u8],
    low: usize,
    index: usize,
    value: &[u8],
) -> Result<(), Refusal>
    ensures { took ring.new result arena.new ≡ applied low (holding ring.old arena.old) (spec-instruction.name_ref true index value.now) }
{
    let place = static_table::get(index as u64)?;
    let mut name = [0; LONGEST_NAME];
    let end = static_table::copy(&mut name, 0, place.start, place.name).unwrap();
    push(ring, arena, low, Source::Given, &name[..end], value)
}

// Another capacity.
fn set_capacity(ring: &mut Ring, low: usize, capacity: usize) -> Result<(), Refusal>
    ensures { (a : List ℕ) → took ring.new result a ≡ applied low (holding ring.old a) (spec-instruction.capacity capacity) }
{
    dynamic::capacity_test(capacity)?;
    let cut = ring.cut(low, capacity).ok_or(Refusal::ShrinkBlocked)?;
    *ring = cut;
    Ok(())
}

// One instruction.
fn apply(
    ring: &mut Ring,
    arena: &mut [u8],
    low: usize,
    s: &[u8],
    one: Parsed,
) -> Result<(), Refusal>
    requires { Inside (length s.now) one }
    ensures { took ring.new result arena.new ≡ applied low (holding ring.old arena.old) (parsed s.now one) }
{
    match one {
        Parsed::Duplicate(index) => duplicate(ring, arena, low, index),
        Parsed::Capacity(capacity) => set_capacity(ring, low, capacity),
        Parsed::Literal {
            name,
            name_len,
            value,
            value_len,
        } => {
            let name_end = name + name_len;
            let value_end = value + value_len;
            push(
                ring,
                arena,
                low,
                Source::Given,
                &s[name..name_end],
                &s[value..value_end],
            )
        }
        Parsed::NameRef {
            is_static,
            index,
            value,
            value_len,
        } => {
            let end = value + value_len;
            if is_static {
                insert_static(ring, arena, low, index, &s[value..end])
            } else {
                insert_named(ring, arena, low, index, &s[value..end])
            }
        }
    }
}

fn ended(consumed: usize, reply: Result<(), Refusal>) -> Ran
    ensures { result ≡ record { consumed = consumed; reply = reply } }
{
    Ran { consumed, reply }
}

// The instructions of a slice. A refusal leaves the entries as they are. A loop for both streams would be no plainer.
fn apply_all(ring: &mut Ring, arena: &mut [u8], low: usize, s: &[u8]) -> Ran
    ensures { ran_to ring.new result arena.new ≡ run_all instruction_at (applied low) s.now (holding ring.old arena.old) }
{
    let mut at = 0;
    // each turn goes on where the instruction ended: no iterator steps by that
    while at < s.len() {
        match instructions::read_instruction(s, at) {
            Ok(Some(read)) => {
                if let Err(refusal) = apply(ring, arena, low, s, read.instruction) {
                    return ended(at, Err(refusal));
                }
                at = read.next;
            }
            Ok(None) => {
                return ended(at, Ok(()));
            }
            Err(why) => {
                return ended(at, Err(why));
            }
        }
    }
    ended(at, Ok(()))
}

// One increment for what was inserted: how many bytes it has.
fn write_increment(out: &mut [u8], before: usize, after: usize) -> Result<usize, Refusal>
    requires { increment_room ≤ length out.old }
    ensures { Tells (incremented (after - before)) out.old out.new result }
{
    if after <= before {
        return Ok(0);
    }
    if MOST_INSERTS < after - before {
        return Err(Refusal::BufSize);
    }
    let kind = Kind::Decoder(DecoderInstruction::InsertCountIncrement);
    stream::write_integer(out, 0, kind, (after - before) as u64)
}

// What a call writes, and answers for its instructions' answer.
fn finish(
    out: &mut [u8],
    before: usize,
    after: usize,
    reply: Result<(), Refusal>,
) -> Result<usize, Refusal>
    requires { increment_room ≤ length out.old }
    ensures { Tells (told (replied reply) (after - before)) out.old out.new result }
{
    reply?;
    write_increment(out, before, after)
}

fn stays(table: Table, why: Refusal) -> Received
    ensures { result ≡ record { table = table; consumed = 0; inserted = table.ring.inserted; written = 0; reply = Err why } }
{
    Received {
        table,
        consumed: 0,
        inserted: table.ring.inserted,
        written: 0,
        reply: Err(why),
    }
}

// The peer's instructions, as its encoder stream brings them: the record is tested once.
pub fn on_encoder_recv(mut table: Table, arena: &mut [u8], s: &[u8], out: &mut [u8]) -> Received
    ensures { Receives table arena.old arena.new s.now out.old out.new result }
{
    let Some(low) = table.checked() else {
        return stays(table, Refusal::BadCall);
    };
    if arena.len() < RING {
        return stays(table, Refusal::BadCall);
    }
    if out.len() < INCREMENT_ROOM {
        return stays(table, Refusal::BadCall);
    }
    if table.active {
        return stays(table, Refusal::SectionOpen);
    }
    let before = table.ring.inserted;
    let ran = apply_all(&mut table.ring, arena, low, s);
    let inserted = table.ring.inserted;
    let told = finish(out, before, inserted, ran.reply);
    Received {
        table,
        consumed: ran.consumed,
        inserted,
        written: told.unwrap_or(0),
        reply: told.and(Ok(())),
    }
}
