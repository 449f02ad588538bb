// A call on the decoder stream, RFC 9204 4.4: the peer's reports, read and applied in their order.
#![tactic(auto)]

ghost use Rattle.std.specs.Prelude.{◌≡◌, true, false, ◌+◌, ◌<◌};
ghost use Rattle.dynamic.specs.Calls as calls;
ghost use Rattle.dynamic.specs.Record.{sound};
ghost use Rattle.running.specs.Run.{run_all};
ghost use Rattle.decoder_stream.specs.Reports.{report_at, report_in, report_read, called, takes, reported, Receives};

use answers::Refusal;
use dynamic::Table;
use forms::{DecoderInstruction, Kind};
use ring::LARGEST_COUNT;
use running::Whole;

// A table, how many bytes were consumed, and the call's answer.
#[derive(Clone, Copy)]
pub struct Reported {
    pub table: Table,
    pub consumed: usize,
    pub reply: Result<(), Refusal>,
}

// What the peer reports: a stream's section, or how many more inserts it received.
#[derive(Clone, Copy)]
pub enum Report {
    Acknowledgement(u64),
    Cancellation(u64),
    Increment(usize),
}

// The report at a position; none where it is cut.
pub fn read_report(s: &[u8], at: usize) -> Result<Option<Whole<Report>>, Refusal>
    ensures { report_read result ≡ report_at s.now at }
{
    if s.len() <= at {
        return Ok(None);
    }
    let kind = forms::decoder_kind(s[at]);
    let Some(integer) = stream::read_integer(s, at, Kind::Decoder(kind))? else {
        return Ok(None);
    };
    let report = match kind {
        DecoderInstruction::InsertCountIncrement => Report::Increment(integer.value as usize),
        DecoderInstruction::StreamCancel => Report::Cancellation(integer.value),
        DecoderInstruction::HeaderAck => Report::Acknowledgement(integer.value),
    };
    Ok(Some(Whole {
        instruction: report,
        next: integer.next,
    }))
}

// The release of a stream's oldest section, on a table that keeps its rules and has no open section: the table's own step
// tests the whole record, which a call on the stream does once.
fn release(table: &mut Table, stream: u64) -> Result<(), Refusal>
    requires { (sound table.old ≡ true) × (table.old.active ≡ false) }
    ensures { calls.answer table.new result ≡ calls.release table.old stream }
{
    let queue = tracking::release(&table.queue, stream).ok_or(Refusal::UnknownStreamId)?;
    table.queue = queue;
    Ok(())
}

// One report, on such a table.
fn apply(table: &mut Table, report: Report) -> Result<(), Refusal>
    requires { (sound table.old ≡ true) × (table.old.active ≡ false) }
    ensures { calls.answer table.new result ≡ called table.old (report_in report) }
{
    match report {
        Report::Acknowledgement(stream) => release(table, stream),
        Report::Cancellation(stream) => release(table, stream),
        Report::Increment(inserts) => {
            let known = table.known;
            if LARGEST_COUNT - known < inserts {
                return Err(Refusal::CountTooLarge);
            }
            table.known = known + inserts;
            table.waiting = tracking::let_go(&table.waiting, known + inserts);
            Ok(())
        }
    }
}

fn ended(table: Table, consumed: usize, reply: Result<(), Refusal>) -> Reported
    ensures { result ≡ record { table = table; consumed = consumed; reply = reply } }
{
    Reported {
        table,
        consumed,
        reply,
    }
}

// The reports of a slice, on such a table. A loop for both streams would take the reader, the step and an arena: no plainer.
fn receive_all(mut table: Table, s: &[u8]) -> Reported
    requires { (sound table ≡ true) × (table.active ≡ false) }
    ensures { reported result ≡ run_all report_at takes s.now table }
{
    let mut at = 0;
    // each turn goes on where the report ended: no iterator steps by that
    while at < s.len() {
        match read_report(s, at) {
            Ok(Some(report)) => {
                if let Err(refusal) = apply(&mut table, report.instruction) {
                    return ended(table, at, Err(refusal));
                }
                at = report.next;
            }
            Ok(None) => {
                return ended(table, at, Ok(()));
            }
            Err(why) => {
                return ended(table, at, Err(why));
            }
        }
    }
    ended(table, at, Ok(()))
}

// The peer's reports, as its decoder stream brings them: the record is tested once.
pub fn on_decoder_recv(table: Table, s: &[u8]) -> Reported
    ensures { Receives table s.now result }
{
    if table.checked().is_none() {
        return ended(table, 0, Err(Refusal::BadCall));
    }
    if table.active {
        return ended(table, 0, Err(Refusal::SectionOpen));
    }
    receive_all(table, s)
}
