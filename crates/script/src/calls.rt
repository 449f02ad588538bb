// The calls that a command can ask for, in the groups in which they are made.

// What an opcode asks for: first what has a table, from `Capacity` on what has none.
#[derive(Clone, Copy)]
pub enum Opcode {
    Table(TableCall),
    Look(LookCall),
    SetField,
    CopyTable,
    CompareTables,
    Line(LineCall),
    Section(SectionCall),
    Arena(ArenaCall),
    Ask(PartQuestion),
    Change(PartChange),
    Capacity,
    PushReply,
    LookupOf,
    Read(ReadCall),
    Stateless(StatelessCall),
    Leaf(LeafCall),
}

impl Opcode {
    pub fn has_table(self) -> bool {
        match self {
            Opcode::Capacity | Opcode::PushReply | Opcode::LookupOf => false,
            Opcode::Read(_) | Opcode::Stateless(_) | Opcode::Leaf(_) => false,
            _ => true,
        }
    }
}

// The table's own calls.
#[derive(Clone, Copy)]
pub enum TableCall {
    Fresh,
    SetCapacity,
    SetMaxBlocked,
    Put,
    Begin,
    Find,
    Insert,
    Commit,
    Abandon,
    Acknowledge,
    Cancel,
    Increment,
    Checked,
    OnEncoderRecv,
    OnDecoderRecv,
}

// A look at the record, and the arena's bytes.
#[derive(Clone, Copy)]
pub enum LookCall {
    Show,
    WriteArena,
    ReadArena,
}

// A field line or an entry on a table's ring.
#[derive(Clone, Copy)]
pub enum LineCall {
    Line,
    Entry,
}

// A section, or one step of it, on a table.
#[derive(Clone, Copy)]
pub enum SectionCall {
    Whole,
    Listed,
    Begin,
    Line,
    Next,
}

// A call on an arena alone.
#[derive(Clone, Copy)]
pub enum ArenaCall {
    Write,
    IsAt,
    MoveBytes,
    CopyOut,
}

// A call on a part of a table that changes nothing.
#[derive(Clone, Copy)]
pub enum PartQuestion {
    EntriesCheck,
    EntriesFewest,
    EntriesNewest,
    RingSound,
    RingRoom,
    RingNewest,
    SectionFloor,
    QueueFloor,
    OpenFloor,
    WaitingOk,
}

// A call that gives another part of a table.
#[derive(Clone, Copy)]
pub enum PartChange {
    RingPush,
    RingCut,
    Note,
    WithUses,
    QueuePush,
    QueueRelease,
    Block,
    WaitingWith,
    LetGo,
}

// A reader that needs no table.
#[derive(Clone, Copy)]
pub enum ReadCall {
    Report,
    Instruction,
    Prefix,
    LineStatic,
    StaticEntry,
    EntryStatic,
}

// A section, one step of it or the cursor before it, without a table.
#[derive(Clone, Copy)]
pub enum StatelessCall {
    Whole,
    Listed,
    Begin,
    Next,
}

// A call of the leaves.
#[derive(Clone, Copy)]
pub enum LeafCall {
    Read(LeafReader),
    Write(LeafWriter),
    Ask(LeafQuestion),
}

#[derive(Clone, Copy)]
pub enum LeafReader {
    Int,
    KindInt,
    Text,
    TextAfter,
    Texts,
    StreamInteger,
    StreamNameRef,
    StreamLiteral,
    Line,
}

#[derive(Clone, Copy)]
pub enum LeafWriter {
    Int,
    Text,
    Bytes,
    StaticCopy,
    StreamInteger,
    StreamNameRef,
    StreamLiteral,
    LineIndexed,
    LineNamed,
    LineLiteral,
    IntText,
    Texts,
}

// A call on numbers, or on the static table.
#[derive(Clone, Copy)]
pub enum LeafQuestion {
    IntSize,
    IntOk,
    TextSize,
    TextOk,
    StaticGet,
    StaticFind,
    StaticFindName,
    Relative,
    RelativeBase,
    PostBase,
    Index,
    LargestRef,
    EncoderKind,
    DecoderKind,
    LineKind,
    FormOf,
    HeadOf,
    PastLimit,
    RefusalNumber,
    EndsEarly,
}
