// What each opcode's command looks like.
ghost use Rattle.std.specs.Prelude.{◌≡◌, ◌≤◌};
ghost use Rattle.script.specs.Shapes.{out_at, others_at, numbers_end};

use crate::bounds::Bound;
use crate::calls::{
    ArenaCall, LeafCall, LeafQuestion, LeafReader, LeafWriter, LineCall, LookCall, Opcode,
    PartChange, PartQuestion, ReadCall, SectionCall, StatelessCall, TableCall,
};
use crate::faults::Fault;

// What a call is lent beside its strings.
#[derive(Clone, Copy)]
enum Lent {
    Nothing,
    Arena,
    Buffer,
    Both,
}

// A command's call, what is lent, how many more numbers, how many strings, and the bound of the first number.
macro_rules! row {
    ($opcode:expr, $lent:ident, $numbers:literal, $strings:literal, $bound:ident) => {
        ($opcode, Lent::$lent, $numbers, $strings, Bound::$bound)
    };
}

// The opcodes in their order.
static ROWS: [(Opcode, Lent, usize, usize, Bound); 105] = [
    row!(Opcode::Table(TableCall::Fresh), Nothing, 0, 0, Any),
    row!(Opcode::Table(TableCall::SetCapacity), Nothing, 1, 0, Any),
    row!(Opcode::Table(TableCall::SetMaxBlocked), Nothing, 1, 0, Any),
    row!(Opcode::Table(TableCall::Put), Arena, 0, 2, Any),
    row!(Opcode::Table(TableCall::Begin), Nothing, 1, 0, Any),
    row!(Opcode::Table(TableCall::Find), Arena, 0, 2, Any),
    row!(Opcode::Table(TableCall::Insert), Arena, 0, 2, Any),
    row!(Opcode::Table(TableCall::Commit), Nothing, 1, 0, Any),
    row!(Opcode::Table(TableCall::Abandon), Nothing, 0, 0, Any),
    row!(Opcode::Table(TableCall::Acknowledge), Nothing, 1, 0, Any),
    row!(Opcode::Table(TableCall::Cancel), Nothing, 1, 0, Any),
    row!(Opcode::Table(TableCall::Increment), Nothing, 1, 0, Any),
    row!(Opcode::Table(TableCall::Checked), Nothing, 0, 0, Any),
    row!(Opcode::Table(TableCall::OnEncoderRecv), Both, 0, 1, Any),
    row!(Opcode::Table(TableCall::OnDecoderRecv), Nothing, 0, 1, Any),
    row!(Opcode::Look(LookCall::Show), Nothing, 0, 0, Any),
    row!(Opcode::SetField, Nothing, 3, 0, Field),
    row!(Opcode::Look(LookCall::WriteArena), Nothing, 1, 1, Place),
    row!(Opcode::Look(LookCall::ReadArena), Nothing, 2, 0, Place),
    row!(Opcode::CopyTable, Nothing, 1, 0, Table),
    row!(Opcode::CompareTables, Nothing, 1, 0, Table),
    row!(Opcode::Line(LineCall::Line), Nothing, 2, 1, Any),
    row!(Opcode::Read(ReadCall::Report), Nothing, 1, 1, Any),
    row!(Opcode::Read(ReadCall::Instruction), Nothing, 1, 1, Any),
    row!(Opcode::Read(ReadCall::Prefix), Nothing, 3, 1, Any),
    row!(Opcode::Read(ReadCall::LineStatic), Nothing, 1, 1, Any),
    row!(
        Opcode::Leaf(LeafCall::Read(LeafReader::Int)),
        Nothing,
        2,
        1,
        Any
    ),
    row!(
        Opcode::Leaf(LeafCall::Ask(LeafQuestion::IntSize)),
        Nothing,
        2,
        0,
        Any
    ),
    row!(
        Opcode::Leaf(LeafCall::Ask(LeafQuestion::IntOk)),
        Nothing,
        2,
        0,
        Any
    ),
    row!(
        Opcode::Leaf(LeafCall::Write(LeafWriter::Int)),
        Buffer,
        4,
        0,
        Any
    ),
    row!(
        Opcode::Leaf(LeafCall::Read(LeafReader::Text)),
        Nothing,
        2,
        1,
        Any
    ),
    row!(
        Opcode::Leaf(LeafCall::Ask(LeafQuestion::TextSize)),
        Nothing,
        3,
        0,
        Any
    ),
    row!(
        Opcode::Leaf(LeafCall::Write(LeafWriter::Text)),
        Buffer,
        3,
        1,
        Any
    ),
    row!(
        Opcode::Leaf(LeafCall::Ask(LeafQuestion::StaticGet)),
        Nothing,
        1,
        0,
        Any
    ),
    row!(
        Opcode::Leaf(LeafCall::Ask(LeafQuestion::StaticFind)),
        Nothing,
        0,
        2,
        Any
    ),
    row!(
        Opcode::Leaf(LeafCall::Ask(LeafQuestion::StaticFindName)),
        Nothing,
        0,
        1,
        Any
    ),
    row!(
        Opcode::Leaf(LeafCall::Write(LeafWriter::StaticCopy)),
        Buffer,
        3,
        0,
        Any
    ),
    row!(
        Opcode::Leaf(LeafCall::Ask(LeafQuestion::Relative)),
        Nothing,
        3,
        0,
        Any
    ),
    row!(
        Opcode::Leaf(LeafCall::Ask(LeafQuestion::RelativeBase)),
        Nothing,
        4,
        0,
        Any
    ),
    row!(
        Opcode::Leaf(LeafCall::Ask(LeafQuestion::PostBase)),
        Nothing,
        4,
        0,
        Any
    ),
    row!(
        Opcode::Leaf(LeafCall::Ask(LeafQuestion::Index)),
        Nothing,
        3,
        0,
        Any
    ),
    row!(
        Opcode::Leaf(LeafCall::Ask(LeafQuestion::LargestRef)),
        Nothing,
        2,
        0,
        Any
    ),
    row!(
        Opcode::Leaf(LeafCall::Read(LeafReader::StreamInteger)),
        Nothing,
        2,
        1,
        Kind
    ),
    row!(
        Opcode::Leaf(LeafCall::Read(LeafReader::StreamNameRef)),
        Nothing,
        1,
        1,
        Any
    ),
    row!(
        Opcode::Leaf(LeafCall::Read(LeafReader::StreamLiteral)),
        Nothing,
        1,
        1,
        Any
    ),
    row!(
        Opcode::Leaf(LeafCall::Write(LeafWriter::StreamInteger)),
        Buffer,
        3,
        0,
        Kind
    ),
    row!(
        Opcode::Leaf(LeafCall::Write(LeafWriter::StreamNameRef)),
        Buffer,
        3,
        1,
        Any
    ),
    row!(
        Opcode::Leaf(LeafCall::Write(LeafWriter::StreamLiteral)),
        Buffer,
        1,
        2,
        Any
    ),
    row!(
        Opcode::Leaf(LeafCall::Read(LeafReader::Line)),
        Nothing,
        1,
        1,
        Any
    ),
    row!(
        Opcode::Leaf(LeafCall::Write(LeafWriter::LineIndexed)),
        Buffer,
        3,
        0,
        Reference
    ),
    row!(
        Opcode::Leaf(LeafCall::Write(LeafWriter::LineNamed)),
        Buffer,
        3,
        1,
        Reference
    ),
    row!(
        Opcode::Leaf(LeafCall::Write(LeafWriter::LineLiteral)),
        Buffer,
        1,
        2,
        Any
    ),
    row!(
        Opcode::Leaf(LeafCall::Ask(LeafQuestion::EncoderKind)),
        Nothing,
        1,
        0,
        Any
    ),
    row!(
        Opcode::Leaf(LeafCall::Ask(LeafQuestion::DecoderKind)),
        Nothing,
        1,
        0,
        Any
    ),
    row!(
        Opcode::Leaf(LeafCall::Ask(LeafQuestion::LineKind)),
        Nothing,
        1,
        0,
        Any
    ),
    row!(
        Opcode::Leaf(LeafCall::Ask(LeafQuestion::FormOf)),
        Nothing,
        1,
        0,
        Kind
    ),
    row!(
        Opcode::Leaf(LeafCall::Ask(LeafQuestion::HeadOf)),
        Nothing,
        2,
        0,
        Kind
    ),
    row!(Opcode::Capacity, Nothing, 1, 0, Any),
    row!(Opcode::Section(SectionCall::Whole), Both, 1, 1, Records),
    row!(
        Opcode::Stateless(StatelessCall::Whole),
        Buffer,
        2,
        1,
        Records
    ),
    row!(
        Opcode::Leaf(LeafCall::Read(LeafReader::TextAfter)),
        Nothing,
        2,
        1,
        Any
    ),
    row!(
        Opcode::Leaf(LeafCall::Read(LeafReader::Texts)),
        Nothing,
        2,
        1,
        Any
    ),
    row!(
        Opcode::Leaf(LeafCall::Write(LeafWriter::IntText)),
        Buffer,
        4,
        1,
        Any
    ),
    row!(
        Opcode::Leaf(LeafCall::Write(LeafWriter::Texts)),
        Buffer,
        3,
        2,
        Any
    ),
    row!(Opcode::PushReply, Nothing, 2, 0, Push),
    row!(Opcode::Arena(ArenaCall::Write), Arena, 1, 1, Any),
    row!(Opcode::Arena(ArenaCall::IsAt), Arena, 1, 1, Any),
    row!(Opcode::Arena(ArenaCall::MoveBytes), Arena, 3, 0, Bytes),
    row!(Opcode::Arena(ArenaCall::CopyOut), Both, 3, 0, Any),
    row!(Opcode::Ask(PartQuestion::EntriesCheck), Nothing, 6, 0, Any),
    row!(Opcode::Ask(PartQuestion::EntriesFewest), Nothing, 6, 0, Any),
    row!(Opcode::Ask(PartQuestion::EntriesNewest), Arena, 3, 2, Any),
    row!(Opcode::Ask(PartQuestion::RingSound), Nothing, 0, 0, Any),
    row!(Opcode::Ask(PartQuestion::RingRoom), Nothing, 3, 0, Any),
    row!(Opcode::Change(PartChange::RingPush), Arena, 3, 2, Reference),
    row!(Opcode::Change(PartChange::RingCut), Nothing, 2, 0, Any),
    row!(Opcode::Ask(PartQuestion::RingNewest), Arena, 2, 2, Any),
    row!(Opcode::Change(PartChange::Note), Nothing, 1, 0, Any),
    row!(Opcode::Ask(PartQuestion::SectionFloor), Nothing, 3, 0, Any),
    row!(Opcode::Ask(PartQuestion::QueueFloor), Nothing, 3, 0, Any),
    row!(Opcode::Change(PartChange::QueuePush), Nothing, 0, 0, Any),
    row!(Opcode::Change(PartChange::QueueRelease), Nothing, 1, 0, Any),
    row!(Opcode::Ask(PartQuestion::WaitingOk), Nothing, 0, 0, Any),
    row!(Opcode::Change(PartChange::Block), Nothing, 1, 0, Any),
    row!(Opcode::Change(PartChange::LetGo), Nothing, 1, 0, Any),
    row!(
        Opcode::Leaf(LeafCall::Ask(LeafQuestion::RefusalNumber)),
        Nothing,
        1,
        0,
        Refusal
    ),
    row!(
        Opcode::Leaf(LeafCall::Ask(LeafQuestion::EndsEarly)),
        Nothing,
        1,
        0,
        Refusal
    ),
    row!(Opcode::Section(SectionCall::Next), Both, 8, 1, Any),
    row!(Opcode::Stateless(StatelessCall::Next), Buffer, 9, 1, Any),
    row!(Opcode::Read(ReadCall::StaticEntry), Nothing, 1, 0, Any),
    row!(Opcode::Line(LineCall::Entry), Nothing, 3, 0, Reference),
    row!(
        Opcode::Read(ReadCall::EntryStatic),
        Nothing,
        2,
        0,
        Reference
    ),
    row!(Opcode::Section(SectionCall::Listed), Both, 1, 1, Records),
    row!(
        Opcode::Stateless(StatelessCall::Listed),
        Buffer,
        2,
        1,
        Records
    ),
    row!(Opcode::Section(SectionCall::Begin), Arena, 7, 1, Any),
    row!(Opcode::Section(SectionCall::Line), Both, 8, 1, Any),
    row!(Opcode::Ask(PartQuestion::OpenFloor), Nothing, 3, 0, Any),
    row!(Opcode::LookupOf, Nothing, 2, 0, Any),
    row!(Opcode::Change(PartChange::WithUses), Nothing, 1, 0, Any),
    row!(Opcode::Change(PartChange::WaitingWith), Nothing, 1, 0, Any),
    row!(
        Opcode::Leaf(LeafCall::Read(LeafReader::KindInt)),
        Nothing,
        2,
        1,
        Kind
    ),
    row!(
        Opcode::Leaf(LeafCall::Ask(LeafQuestion::PastLimit)),
        Nothing,
        2,
        0,
        Kind
    ),
    row!(
        Opcode::Leaf(LeafCall::Ask(LeafQuestion::TextOk)),
        Nothing,
        2,
        0,
        Any
    ),
    row!(Opcode::Stateless(StatelessCall::Begin), Nothing, 0, 0, Any),
    row!(
        Opcode::Leaf(LeafCall::Write(LeafWriter::Bytes)),
        Buffer,
        3,
        1,
        Any
    ),
];

// What a command has: the flags say whether, and no value stands beside them.
#[derive(Clone, Copy)]
pub struct Shape {
    pub opcode: Opcode,
    pub arena: bool,
    pub out: bool,
    pub numbers: usize,
    pub strings: usize,
    pub bound: Bound,
}

impl TryFrom<u8> for Shape {
    type Error = Fault;

    fn try_from(number: u8) -> Result<Shape, Fault> {
        let row = ROWS.get(usize::from(number)).ok_or(Fault::UnknownOpcode)?;
        let (opcode, lent, numbers, strings, bound) = *row;
        Ok(Shape {
            opcode,
            arena: matches!(lent, Lent::Arena | Lent::Both),
            out: matches!(lent, Lent::Buffer | Lent::Both),
            numbers,
            strings,
            bound,
        })
    }
}

impl Shape {
    // Where the output buffer's numbers begin among the command's: behind the arena's.
    pub fn out_at(self) -> usize
        ensures { (result ≡ out_at self) × (result ≤ 8) }
    {
        if self.arena { 8 } else { 0 }
    }

    // Where the other numbers begin.
    pub fn others_at(self) -> usize
        ensures { (result ≡ others_at self) × (result ≤ 24) }
    {
        let at = self.out_at();
        if self.out { at + 16 } else { at }
    }

    // Where the numbers end. A row's count of numbers is one digit.
    pub fn numbers_end(self) -> usize
        ensures { (result ≡ numbers_end self) × (result ≤ 96) }
    {
        self.others_at() + 8 * (self.numbers % 10)
    }
}
