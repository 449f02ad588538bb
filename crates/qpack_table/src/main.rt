// The program: an encoder stream on standard input, applied to a fresh table, and a report of the table.
#![tactic(auto)]

ghost use Rattle.std.specs.Prelude.{◌≡◌, [], true, ◌+◌, ◌≤◌, ◌++◌, length};
ghost use Rattle.arrayvec.specs.ArrayString.{array_string_len};
ghost use Rattle.ring.specs.Ring.{keeps, live};
ghost use Rattle.qpack_table.specs.Text.{decimal, told, counts, entry_line, entry_lines, number_in, ending, report_of};

use answers::Refusal;
use arena::RING;
use arrayvec::ArrayString;
use dynamic::Table;
use encoder_stream::{INCREMENT_ROOM, Received};
use entries::SLOTS;
use field::ESTIMATED_OVERHEAD_BYTES;
use ring::Ring;
use std::io::Read;

// How long a stream may be.
const INPUT_ROOM: usize = 65536;

// How long a report may be.
const REPORT_ROOM: usize = 65536;

// A number in decimal digits.
fn put_number(out: &mut ArrayString<REPORT_ROOM>, n: usize)
    requires { array_string_len out.old + 20 ≤ 65536 }
    ensures text { out.new.bytes ≡ out.old.bytes ++ decimal n }
    ensures long { array_string_len out.new ≤ array_string_len out.old + 20 }
{
    let mut digits = itoa::Buffer::new();
    out.push_str(digits.format(n as u64));
}

// A word and its number.
fn put_told(out: &mut ArrayString<REPORT_ROOM>, word: &str, n: usize)
    requires { array_string_len out.old + (length word.now + 21) ≤ 65536 }
    ensures text { out.new.bytes ≡ out.old.bytes ++ told word.now n }
    ensures long { array_string_len out.new ≤ array_string_len out.old + (length word.now + 21) }
{
    out.push_str(word);
    out.push_str(" ");
    put_number(out, n);
}

// The line of counts.
fn put_counts(out: &mut ArrayString<REPORT_ROOM>, ring: &Ring)
    requires { array_string_len out.old + 120 ≤ 65536 }
    ensures text { out.new.bytes ≡ out.old.bytes ++ counts ring.now }
    ensures long { array_string_len out.new ≤ array_string_len out.old + 120 }
{
    put_told(out, "capacity", ring.capacity);
    put_told(out, " size", ring.size);
    put_told(out, " inserted", ring.inserted);
    put_told(out, " dropped", ring.dropped);
    out.push_str("\n");
}

// The line of one entry.
fn put_entry(out: &mut ArrayString<REPORT_ROOM>, absolute: usize, name: usize, value: usize)
    requires { (array_string_len out.old + 84 ≤ 65536) × (name ≤ 65535) × (value ≤ 65535) }
    ensures text { out.new.bytes ≡ out.old.bytes ++ entry_line absolute name value }
    ensures long { array_string_len out.new ≤ array_string_len out.old + 84 }
{
    put_number(out, absolute);
    put_told(out, "", name + value + ESTIMATED_OVERHEAD_BYTES);
    put_told(out, "", name);
    put_told(out, "", value);
    out.push_str("\n");
}

// The lines of the entries, oldest first.
fn put_entries(out: &mut ArrayString<REPORT_ROOM>, ring: &Ring)
    requires { (keeps ring.now ≡ true) × (array_string_len out.old + 43008 ≤ 65536) }
    ensures text { out.new.bytes ≡ out.old.bytes ++ entry_lines ring.now.dropped (live ring.now) }
    ensures long { array_string_len out.new ≤ array_string_len out.old + 43008 }
{
    for gone in ring.dropped..ring.inserted {
        let i = gone % SLOTS;
        put_entry(
            out,
            gone + 1,
            usize::from(ring.names[i]),
            usize::from(ring.values[i]),
        );
    }
}

// An answer's number.
fn number_of(reply: Result<(), Refusal>) -> usize
    ensures { result ≡ number_in reply }
{
    match reply {
        Ok(()) => 0,
        Err(why) => answers::number(why) as usize,
    }
}

// The last line.
fn put_ending(out: &mut ArrayString<REPORT_ROOM>, consumed: usize, reply: Result<(), Refusal>)
    requires { array_string_len out.old + 60 ≤ 65536 }
    ensures text { out.new.bytes ≡ out.old.bytes ++ ending consumed reply }
    ensures long { array_string_len out.new ≤ array_string_len out.old + 60 }
{
    put_told(out, "consumed", consumed);
    put_told(out, " answer", number_of(reply));
    out.push_str("\n");
}

// The whole report, into an empty string that is lent: one handed on by value would stand on the stack twice.
fn report_of(
    out: &mut ArrayString<REPORT_ROOM>,
    ring: &Ring,
    consumed: usize,
    reply: Result<(), Refusal>,
)
    requires { (keeps ring.now ≡ true) × (out.old.bytes ≡ []) }
    ensures { out.new.bytes ≡ report_of ring.now consumed reply }
{
    out.push_str("qpack table\n");
    put_counts(out, ring);
    put_entries(out, ring);
    put_ending(out, consumed, reply);
}

// Applies a stream to a fresh table.
fn run(s: &[u8]) -> Received
    ensures { keeps result.table.ring ≡ true }
{
    let mut arena = [0; RING];
    let mut increment = [0; INCREMENT_ROOM];
    encoder_stream::on_encoder_recv(Table::fresh(), &mut arena, s, &mut increment)
}

// The front of the input, up to the buffer's end: how many bytes it is.
fn read_front(rt: &HostRuntime, buf: &mut [u8]) -> usize
    ensures { result ≤ length buf.new }
{
    let mut source = rt.stdin();
    let mut n = 0;
    // each turn goes on behind what it was given
    while n < buf.len() {
        let Ok(more) = source.read(&mut buf[n..]) else {
            break;
        };
        if more == 0 {
            break;
        }
        n += more;
    }
    n
}

fn main(rt: HostRuntime) {
    let mut input = [0; INPUT_ROOM];
    let n = read_front(&rt, &mut input);
    // a stream that goes on is longer than one may be
    let more = read_front(&rt, &mut [0; 1]);
    let mut report = ArrayString::new();
    if 0 < more {
        report_of(&mut report, &Table::fresh().ring, 0, Err(Refusal::BadCall));
    } else {
        let received = run(&input[..n]);
        report_of(
            &mut report,
            &received.table.ring,
            received.consumed,
            received.reply,
        );
    }
    // in one write; where it fails, there is nobody to tell
    let _ = rt.write_all(report.as_str().as_bytes());
}
