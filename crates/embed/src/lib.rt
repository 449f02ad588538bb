// The library for C and Rust: each call by a plain name, its answer as the specification's number. include/qpack_table.h declares the same.
#![tactic(auto)]

ghost use Rattle.std.specs.Prelude.{◌≡◌, length};
ghost use Rattle.decoder.specs.Section.{on_table, stateless, read_all, numbers};
ghost use Rattle.decoder_stream.specs.Reports.{receiving};
ghost use Rattle.dynamic.specs.Calls as calls;
ghost use Rattle.encoder_stream.specs.Stream.{received};
ghost use Rattle.embed.specs.Outcomes as spec;

use crate::outcomes::{DecoderOutcome, EncoderOutcome, NamedOutcome, Outcome, SectionOutcome};
use decoder::MaxSize;
use dynamic::Table;

pub mod outcomes;

// ---- the table

// A table with nothing in it, and no room.
pub fn qpack_fresh() -> Table
    ensures { result ≡ calls.fresh_table }
{
    Table::fresh()
}

// Sets the capacity.
pub fn qpack_set_capacity(table: Table, capacity: usize) -> Outcome
    ensures { result ≡ spec.outcome_of (calls.set_capacity table capacity) }
{
    Outcome::from(table.set_capacity(capacity))
}

// Sets the blocked maximum.
#[inline(always)]
pub fn qpack_set_max_blocked(table: Table, most: usize) -> Outcome
    ensures { result ≡ spec.outcome_of (calls.set_most table most) }
{
    Outcome::from(table.set_max_blocked(most))
}

// Inserts a field, where it can be.
#[inline(always)]
pub fn qpack_put(table: Table, arena: &mut [u8], name: &[u8], value: &[u8]) -> Outcome
    ensures value { result ≡ spec.outcome_of (calls.put table arena.old name.now value.now) }
    ensures arena_after { arena.new ≡ calls.bytes_after table result.table arena.old name.now value.now }
{
    Outcome::from(table.put(arena, name, value))
}

// ---- sections

// Opens a section of a stream.
pub fn qpack_begin(table: Table, stream: u64) -> Outcome
    ensures { result ≡ spec.outcome_of (calls.begin table stream) }
{
    Outcome::from(table.begin(stream))
}

// The latest entry of a field, which the open section then uses.
pub fn qpack_find(table: Table, arena: &[u8], name: &[u8], value: &[u8]) -> NamedOutcome
    ensures { result ≡ spec.looked_of (calls.find table arena.now name.now value.now) }
{
    NamedOutcome::from(table.find(arena, name, value))
}

// Inserts a field that the open section then uses, or says what names it.
pub fn qpack_insert(table: Table, arena: &mut [u8], name: &[u8], value: &[u8]) -> NamedOutcome
    ensures value { result ≡ spec.inserting_of (calls.insert table arena.old name.now value.now) }
    ensures arena_after { arena.new ≡ calls.bytes_after table result.table arena.old name.now value.now }
{
    NamedOutcome::from(table.insert(arena, name, value))
}

// Puts the open section into the queue; largest is its largest reference.
#[inline(always)]
pub fn qpack_commit(table: Table, largest: usize) -> Outcome
    ensures { result ≡ spec.outcome_of (calls.commit table largest) }
{
    Outcome::from(table.commit(largest))
}

// Closes the open section and gives all its references back.
pub fn qpack_abandon(table: Table) -> Outcome
    ensures { result ≡ spec.outcome_of (calls.abandon table) }
{
    Outcome::from(table.abandon())
}

// ---- the peer's reports

// The peer acknowledged a section of a stream.
#[inline(always)]
pub fn qpack_acknowledge(table: Table, stream: u64) -> Outcome
    ensures { result ≡ spec.outcome_of (calls.release table stream) }
{
    Outcome::from(table.acknowledge(stream))
}

// The peer cancelled a stream: C calls this apart from an acknowledgement.
#[inline(always)]
pub fn qpack_cancel(table: Table, stream: u64) -> Outcome
    ensures { result ≡ spec.outcome_of (calls.release table stream) }
{
    Outcome::from(table.cancel(stream))
}

// The peer received more inserts.
pub fn qpack_increment(table: Table, inserts: usize) -> Outcome
    ensures { result ≡ spec.outcome_of (calls.increment table inserts) }
{
    Outcome::from(table.increment(inserts))
}

// ---- streams

// A call on the encoder stream; the increment goes to out.
pub fn qpack_on_encoder_recv(
    table: Table,
    arena: &mut [u8],
    bytes: &[u8],
    out: &mut [u8],
) -> EncoderOutcome
    ensures value { result ≡ spec.streamed_of table (received table arena.old bytes.now (length out.old)) }
    ensures arena_after { arena.new ≡ (received table arena.old bytes.now (length out.old)).state.arena }
    ensures out_after { out.new ≡ spec.out_of (received table arena.old bytes.now (length out.old)) out.old }
{
    let received = encoder_stream::on_encoder_recv(table, arena, bytes, out);
    EncoderOutcome {
        table: received.table,
        consumed: received.consumed,
        inserted: received.inserted,
        written: received.written,
        answer: outcomes::reply_number(received.reply),
    }
}

// A call on the decoder stream.
pub fn qpack_on_decoder_recv(table: Table, bytes: &[u8]) -> DecoderOutcome
    ensures { result ≡ spec.ended_of (receiving table bytes.now) }
{
    let reported = decoder_stream::on_decoder_recv(table, bytes);
    DecoderOutcome {
        table: reported.table,
        consumed: reported.consumed,
        answer: outcomes::reply_number(reported.reply),
    }
}

// ---- reading sections

// Reads a section on a table.
pub fn qpack_read_section(
    table: Table,
    arena: &[u8],
    bytes: &[u8],
    fields: &mut [[usize; 3]],
    out: &mut [u8],
) -> SectionOutcome
    ensures value { result ≡ spec.decoded_of (read_all numbers (on_table table arena.now) bytes.now fields.old out.old).decoded }
    ensures fields_after { fields.new ≡ (read_all numbers (on_table table arena.now) bytes.now fields.old out.old).fields }
    ensures out_after { out.new ≡ (read_all numbers (on_table table arena.now) bytes.now fields.old out.old).out }
{
    SectionOutcome::from(decoder::read_on(bytes, arena, &table, fields, out))
}

// Reads a section with no table; most is the largest size sum.
pub fn qpack_read_stateless(
    bytes: &[u8],
    most: usize,
    fields: &mut [[usize; 3]],
    out: &mut [u8],
) -> SectionOutcome
    ensures value { result ≡ spec.decoded_of (read_all numbers (stateless most) bytes.now fields.old out.old).decoded }
    ensures fields_after { fields.new ≡ (read_all numbers (stateless most) bytes.now fields.old out.old).fields }
    ensures out_after { out.new ≡ (read_all numbers (stateless most) bytes.now fields.old out.old).out }
{
    SectionOutcome::from(decoder::read_stateless(bytes, MaxSize { bytes: most }, fields, out))
}
