// The exports of the archive for C and Rust: each calls the function of its name in `embed`, and promises the same.
// Two crates, since a crate with exports is an archive, and whoever writes Rattle uses `embed` as a library.
#![tactic(auto)]

ghost use Rattle.std.specs.Prelude.{◌≡◌, length};
ghost use Rattle.decoder.specs.Section.{on_table, stateless, read_all, numbers};
ghost use Rattle.decoder_stream.specs.Reports.{receiving};
ghost use Rattle.dynamic.specs.Calls as calls;
ghost use Rattle.encoder_stream.specs.Stream.{received};
ghost use Rattle.embed.specs.Outcomes as spec;

use decoder::MaxSize;
use dynamic::Table;
use embed::outcomes::{DecoderOutcome, EncoderOutcome, NamedOutcome, Outcome, SectionOutcome};

// A table with nothing in it, and no room.
#[unsafe(no_mangle)]
pub extern "C" fn qpack_fresh() -> Table
    ensures { result ≡ calls.fresh_table }
{
    embed::qpack_fresh()
}

// Sets the capacity.
#[unsafe(no_mangle)]
pub extern "C" fn qpack_set_capacity(table: Table, capacity: usize) -> Outcome
    ensures { result ≡ spec.outcome_of (calls.set_capacity table capacity) }
{
    embed::qpack_set_capacity(table, capacity)
}

// Sets the blocked maximum.
#[unsafe(no_mangle)]
pub extern "C" fn qpack_set_max_blocked(table: Table, most: usize) -> Outcome
    ensures { result ≡ spec.outcome_of (calls.set_most table most) }
{
    embed::qpack_set_max_blocked(table, most)
}

// Inserts a field, where it can be.
#[unsafe(no_mangle)]
pub extern "C" fn qpack_put(table: Table, arena: &mut [u8], name: &[u8], value: &[u8]) -> Outcome
    ensures value { result ≡ spec.outcome_of (calls.put table arena.old name.now value.now) }
    ensures arena_after { arena.new ≡ calls.bytes_after table result.table arena.old name.now value.now }
{
    embed::qpack_put(table, arena, name, value)
}

// Opens a section of a stream.
#[unsafe(no_mangle)]
pub extern "C" fn qpack_begin(table: Table, stream: u64) -> Outcome
    ensures { result ≡ spec.outcome_of (calls.begin table stream) }
{
    embed::qpack_begin(table, stream)
}

// The latest entry of a field, which the open section then uses.
#[unsafe(no_mangle)]
pub extern "C" fn qpack_find(table: Table, arena: &[u8], name: &[u8], value: &[u8]) -> NamedOutcome
    ensures { result ≡ spec.looked_of (calls.find table arena.now name.now value.now) }
{
    embed::qpack_find(table, arena, name, value)
}

// Inserts a field that the open section then uses, or says what names it.
#[unsafe(no_mangle)]
pub extern "C" fn qpack_insert(
    table: Table,
    arena: &mut [u8],
    name: &[u8],
    value: &[u8],
) -> NamedOutcome
    ensures value { result ≡ spec.inserting_of (calls.insert table arena.old name.now value.now) }
    ensures arena_after { arena.new ≡ calls.bytes_after table result.table arena.old name.now value.now }
{
    embed::qpack_insert(table, arena, name, value)
}

// Puts the open section into the queue; largest is its largest reference.
#[unsafe(no_mangle)]
pub extern "C" fn qpack_commit(table: Table, largest: usize) -> Outcome
    ensures { result ≡ spec.outcome_of (calls.commit table largest) }
{
    embed::qpack_commit(table, largest)
}

// Closes the open section and gives all its references back.
#[unsafe(no_mangle)]
pub extern "C" fn qpack_abandon(table: Table) -> Outcome
    ensures { result ≡ spec.outcome_of (calls.abandon table) }
{
    embed::qpack_abandon(table)
}

// The peer acknowledged a section of a stream.
#[unsafe(no_mangle)]
pub extern "C" fn qpack_acknowledge(table: Table, stream: u64) -> Outcome
    ensures { result ≡ spec.outcome_of (calls.release table stream) }
{
    embed::qpack_acknowledge(table, stream)
}

// The peer cancelled a stream.
#[unsafe(no_mangle)]
pub extern "C" fn qpack_cancel(table: Table, stream: u64) -> Outcome
    ensures { result ≡ spec.outcome_of (calls.release table stream) }
{
    embed::qpack_cancel(table, stream)
}

// The peer received more inserts.
#[unsafe(no_mangle)]
pub extern "C" fn qpack_increment(table: Table, inserts: usize) -> Outcome
    ensures { result ≡ spec.outcome_of (calls.increment table inserts) }
{
    embed::qpack_increment(table, inserts)
}

// A call on the encoder stream; the increment goes to out.
#[unsafe(no_mangle)]
pub extern "C" fn qpack_on_encoder_recv(
    table: Table,
    arena: &mut [u8],
    bytes: &[u8],
    out: &mut [u8],
) -> EncoderOutcome
    ensures value { result ≡ spec.streamed_of table (received table arena.old bytes.now (length out.old)) }
    ensures arena_after { arena.new ≡ (received table arena.old bytes.now (length out.old)).state.arena }
    ensures out_after { out.new ≡ spec.out_of (received table arena.old bytes.now (length out.old)) out.old }
{
    embed::qpack_on_encoder_recv(table, arena, bytes, out)
}

// A call on the decoder stream.
#[unsafe(no_mangle)]
pub extern "C" fn qpack_on_decoder_recv(table: Table, bytes: &[u8]) -> DecoderOutcome
    ensures { result ≡ spec.ended_of (receiving table bytes.now) }
{
    embed::qpack_on_decoder_recv(table, bytes)
}

// Reads a section on a table.
#[unsafe(no_mangle)]
pub extern "C" fn qpack_read_section(
    table: Table,
    arena: &[u8],
    bytes: &[u8],
    fields: &mut [[usize; 3]],
    out: &mut [u8],
) -> SectionOutcome
    ensures value { result ≡ spec.decoded_of (read_all numbers (on_table table arena.now) bytes.now fields.old out.old).decoded }
    ensures fields_after { fields.new ≡ (read_all numbers (on_table table arena.now) bytes.now fields.old out.old).fields }
    ensures out_after { out.new ≡ (read_all numbers (on_table table arena.now) bytes.now fields.old out.old).out }
{
    embed::qpack_read_section(table, arena, bytes, fields, out)
}

// Reads a section with no table; most is the largest size sum.
#[unsafe(no_mangle)]
pub extern "C" fn qpack_read_stateless(
    bytes: &[u8],
    most: usize,
    fields: &mut [[usize; 3]],
    out: &mut [u8],
) -> SectionOutcome
    ensures value { result ≡ spec.decoded_of (read_all numbers (stateless most) bytes.now fields.old out.old).decoded }
    ensures fields_after { fields.new ≡ (read_all numbers (stateless most) bytes.now fields.old out.old).fields }
    ensures out_after { out.new ≡ (read_all numbers (stateless most) bytes.now fields.old out.old).out }
{
    embed::qpack_read_stateless(bytes, most, fields, out)
}
