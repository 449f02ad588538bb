// Sections with their records by value: each reader of `decoder` that stores in a lent list is lent the first records of a list of its own. So whoever calls these needs no proof by hand.
#![tactic(auto)]

ghost use Rattle.std.specs.Prelude.{◌≡◌};
ghost use Rattle.decoder.specs.Section.{on_table, stateless};
ghost use Rattle.listed.specs.Lent.{lent_of, Lists};

use decoder::{Decoded, Field, MaxSize, decode_header, decode_stateless};
use dynamic::Table;

// How many records there are.
pub const RECORDS: usize = 1024;

// A section's answer, and all the records: those that were not stored are as they were.
#[derive(Clone, Copy)]
pub struct Listed {
    pub decoded: Decoded,
    pub fields: [Field; RECORDS],
}

// Two functions, and no generic one over the call that reads: each is that call between a list and a struct.

// `decode_header` with the first `room` of the records, each of which was `fill`.
pub fn decode_header_listed(
    s: &[u8],
    arena: &[u8],
    table: &Table,
    fill: Field,
    room: usize,
    out: &mut [u8],
) -> Listed
    ensures { Lists (on_table table.now arena.now) s.now fill (lent_of room) out.old result out.new }
{
    let count = room.min(RECORDS);
    let mut list = [fill; RECORDS];
    let decoded = decode_header(s, arena, table, &mut list[..count], out);
    Listed {
        decoded,
        fields: list,
    }
}

// `decode_stateless` with the first `room` of the records, each of which was `fill`.
pub fn decode_stateless_listed(
    s: &[u8],
    max: MaxSize,
    fill: Field,
    room: usize,
    out: &mut [u8],
) -> Listed
    ensures { Lists (stateless max.bytes) s.now fill (lent_of room) out.old result out.new }
{
    let count = room.min(RECORDS);
    let mut list = [fill; RECORDS];
    let decoded = decode_stateless(s, max, &mut list[..count], out);
    Listed {
        decoded,
        fields: list,
    }
}
