// One step of a section, RFC 9204 4.5: the prefix or a line, on a table or with none, its strings put into a lent buffer.
#![tactic(auto)]

ghost use Rattle.std.specs.Prelude.{◌≡◌, ◌++◌, ℕ, ◌+◌, ◌^◌, ◌<◌, ◌≤◌, ltb, length};
ghost use Rattle.std.proofs.lemmas.List.Edits.{sets};
ghost use Rattle.answers.specs.Answer.{answered};
ghost use Rattle.field.specs.Field.{overhead};
ghost use Rattle.field_lines.specs.Line.{text_in, TextInside, field_read, live_of};
ghost use Rattle.section_steps.specs.Section.{on_table, stateless, begun, cursor_at, start, decoded_of, found_of, line_told, is_over, limit_of, fits, field_step, bytes_of, stored_by, line_in, out_in, line_of, out_of, length_of, Ready, LineReady};

use answers::Refusal;
use arena::RING;
use dynamic::Table;
use field::ESTIMATED_OVERHEAD_BYTES;
use field_lines::{FieldAt, Text};
use header_prefix::Prefix;
use ring::Ring;

// One decoded field: where its bytes start in the buffer, and how many its name and its value have.
#[derive(Clone, Copy)]
pub struct Field {
    pub start: usize,
    pub name: usize,
    pub value: usize,
}

// Where a reader stands: whether the prefix was read and what it gave, the next byte, and what was stored so far.
// The flag stands beside the numbers, and no Option: a caller may come with any cursor, and `cursor_at` speaks of each.
// The buffer is lent to each step, so its used length stands here.
#[derive(Clone, Copy)]
pub struct Cursor {
    pub started: bool,
    pub dynamic: bool,
    pub base: usize,
    pub at: usize,
    pub used: usize,
    pub count: usize,
    pub size: usize,
}

// A section's answer: whether the required count was above 0, how many records and bytes were stored, and the size sum.
// The numbers stand beside the reply, and not in its Ok: a refused section tells them too.
#[derive(Clone, Copy)]
pub struct Decoded {
    pub reply: Result<(), Refusal>,
    pub dynamic: bool,
    pub count: usize,
    pub used: usize,
    pub size: usize,
}

// What one step finds: the end, with the reply and where the reader stands; or a field, with its record and where to go on.
#[derive(Clone, Copy)]
pub enum Line {
    Ended(Result<(), Refusal>, Cursor),
    Found(Field, Cursor),
}

// The largest size sum of the stateless reader.
#[derive(Clone, Copy)]
pub struct MaxSize {
    pub bytes: usize,
}

// The largest size sum that is told.
const LARGEST_SUM: usize = 9223372036854775807;

// A cursor before a section.
pub fn begin() -> Cursor
    ensures { result ≡ start }
{
    Cursor {
        started: false,
        dynamic: false,
        base: 0,
        at: 0,
        used: 0,
        count: 0,
        size: 0,
    }
}

impl Cursor {
    // The answer of a section that ends here.
    pub fn decoded(self, reply: Result<(), Refusal>) -> Decoded
        ensures { result ≡ decoded_of reply self }
    {
        Decoded {
            reply,
            dynamic: self.dynamic,
            count: self.count,
            used: self.used,
            size: self.size,
        }
    }
}

// A field that is stored at the cursor; its line ends at a position.
fn found(c: Cursor, name: usize, value: usize, next: usize) -> Line
    requires { (c.used + (name + value) < 2 ^ 64) × (c.count + 1 < 2 ^ 64) × (c.size + (name + value + overhead) < 2 ^ 64) }
    ensures { line_told result ≡ found_of c name value next }
{
    let field = Field {
        start: c.used,
        name,
        value,
    };
    Line::Found(
        field,
        Cursor {
            at: next,
            used: c.used + (name + value),
            count: c.count + 1,
            size: c.size + (name + value + ESTIMATED_OVERHEAD_BYTES),
            ..c
        },
    )
}

// Whether a number of bytes, two more numbers and an entry's overhead come to more than a maximum.
fn is_past(most: usize, size: usize, name: usize, value: usize) -> bool
    ensures { result ≡ ltb most (size + (name + value + overhead)) }
{
    // The sum may be past a usize.
    let sum = size as u128 + name as u128 + value as u128 + ESTIMATED_OVERHEAD_BYTES as u128;
    (most as u128) < sum
}

// Whether the size sum is above the limit.
fn is_over(limit: Option<usize>, size: usize, name: usize, value: usize) -> bool
    ensures { result ≡ is_over (limit_of limit) (size + (name + value + overhead)) }
{
    limit.is_some_and(|most| is_past(most, size, name, value))
}

// Whether the next field and its bytes fit.
fn has_room(room: usize, cap: usize, c: Cursor, name: usize, value: usize) -> bool
    ensures { result ≡ fits room cap c name value }
{
    let end = c.used as u128 + name as u128 + value as u128;
    c.count < room && end <= cap as u128 && !is_past(LARGEST_SUM, c.size, name, value)
}

fn text_len(text: Text) -> usize
    ensures { result ≡ length_of text }
{
    match text {
        Text::Input { len, .. } | Text::Fixed { len, .. } | Text::Stored { len, .. } => len,
    }
}

// A string, copied to the buffer.
fn copy_text(s: &[u8], arena: &[u8], text: Text, out: &mut [u8], at: usize)
    requires { TextInside (length s.now) text × Ready arena.now text × (at + length_of text ≤ length out.old) }
    ensures { out.new ≡ sets out.old at (text_in s.now arena.now text) }
{
    match text {
        Text::Input { start, len } => {
            byte_writing::write(out, at, s, start, len).unwrap();
        }
        Text::Fixed { start, len } => {
            static_table::copy(out, at, start, len).unwrap();
        }
        Text::Stored { start, len } => {
            arena::copy(arena, start, len, out, at).unwrap();
        }
    }
}

// A field's two strings, copied to the buffer; by one copy where the value stands behind the name in the static table.
fn copy_field(s: &[u8], arena: &[u8], name: Text, value: Text, out: &mut [u8], at: usize)
    requires { TextInside (length s.now) name × TextInside (length s.now) value × Ready arena.now name × Ready arena.now value
        × (at + (length_of name + length_of value) ≤ length out.old) }
    ensures { out.new ≡ sets out.old at (text_in s.now arena.now name ++ text_in s.now arena.now value) }
{
    if let Text::Fixed { start, len } = name {
        if let Text::Fixed {
            start: behind,
            len: more,
        } = value
        {
            if start + len == behind {
                static_table::copy(out, at, start, len + more).unwrap();
                return;
            }
        }
    }
    copy_text(s, arena, name, out, at);
    copy_text(s, arena, value, out, at + text_len(name));
}

// The field of a line, stored where it fits: what is lent, the line and its limits, and where the reader stands.
fn place(
    s: &[u8],
    arena: &[u8],
    line: Result<FieldAt, Refusal>,
    limit: Option<usize>,
    room: usize,
    out: &mut [u8],
    c: Cursor,
) -> Line
    requires { LineReady s.now arena.now line }
    ensures { (line_told result ≡ field_step (limit_of limit) room (length out.old) c (field_read s.now arena.now line))
        × (out.new ≡ stored_by c out.old (line_told result) (bytes_of (field_read s.now arena.now line))) }
{
    match line {
        Err(why) => Line::Ended(Err(why), c),
        Ok(field) => {
            let n = text_len(field.name);
            let v = text_len(field.value);
            if is_over(limit, c.size, n, v) {
                return Line::Ended(Err(Refusal::HeaderTooLong), c);
            }
            if !has_room(room, out.len(), c, n, v) {
                return Line::Ended(Err(Refusal::OutputFull), c);
            }
            copy_field(s, arena, field.name, field.value, out, c.used);
            found(c, n, v, field.next)
        }
    }
}

// A cursor past a prefix.
fn past_prefix(c: Cursor, prefix: Prefix) -> Cursor
    ensures { result ≡ begun c prefix }
{
    Cursor {
        started: true,
        dynamic: 0 < prefix.required,
        base: prefix.base,
        at: prefix.next,
        ..c
    }
}

// Where the next line of a section on a table stands; the record is tested once, before the prefix.
#[tactic(auto, unfolding(crate::specs::Section::cursor_at, crate::specs::Section::start_of))]
pub fn begin_on(s: &[u8], arena: &[u8], table: &Table, c: Cursor) -> Result<Cursor, Refusal>
    ensures { answered result ≡ cursor_at (on_table table.now arena.now) s.now c }
{
    if arena.len() < RING {
        return Err(Refusal::BadCall);
    }
    if c.started {
        return Ok(c);
    }
    table.checked().ok_or(Refusal::BadCall)?;
    if table.active {
        return Err(Refusal::SectionOpen);
    }
    let prefix = header_prefix::read_prefix(s, 0, table.ring.inserted, table.ring.capacity)?;
    Ok(past_prefix(c, prefix))
}

// The next line of a section on the entries of a ring.
pub fn line_on(s: &[u8], arena: &[u8], ring: &Ring, room: usize, out: &mut [u8], c: Cursor) -> Line
    ensures { (line_told result ≡ line_in (live_of ring.now arena.now) arena.now s.now room (length out.old) c)
        × (out.new ≡ out_in (live_of ring.now arena.now) s.now c out.old (line_told result)) }
{
    if arena.len() < RING {
        return Line::Ended(Err(Refusal::BadCall), c);
    }
    if s.len() <= c.at {
        return Line::Ended(Ok(()), c);
    }
    let line = field_lines::read_on(ring, c.base, s, c.at);
    place(s, arena, line, None, room, out, c)
}

// One step of a section on a table.
pub fn next_on(
    s: &[u8],
    arena: &[u8],
    table: &Table,
    room: usize,
    out: &mut [u8],
    c: Cursor,
) -> Line
    ensures { (line_told result ≡ line_of (on_table table.now arena.now) s.now room (length out.old) c)
        × (out.new ≡ out_of (on_table table.now arena.now) s.now c out.old (line_told result)) }
{
    match begin_on(s, arena, table, c) {
        Err(why) => Line::Ended(Err(why), c),
        Ok(d) => line_on(s, arena, &table.ring, room, out, d),
    }
}

// Where the next line of a section without a table stands.
#[tactic(auto, unfolding(crate::specs::Section::cursor_at, crate::specs::Section::start_of))]
fn begin_stateless(s: &[u8], c: Cursor) -> Result<Cursor, Refusal>
    ensures { (most : ℕ) → answered result ≡ cursor_at (stateless most) s.now c }
{
    if c.started {
        return Ok(c);
    }
    let prefix = header_prefix::read_prefix(s, 0, 0, 0)?;
    Ok(past_prefix(c, prefix))
}

// One step of a section without a table.
pub fn next_stateless(s: &[u8], max: MaxSize, room: usize, out: &mut [u8], c: Cursor) -> Line
    ensures { (line_told result ≡ line_of (stateless max.bytes) s.now room (length out.old) c)
        × (out.new ≡ out_of (stateless max.bytes) s.now c out.old (line_told result)) }
{
    match begin_stateless(s, c) {
        Err(why) => Line::Ended(Err(why), c),
        Ok(d) => {
            if s.len() <= d.at {
                return Line::Ended(Ok(()), d);
            }
            let line = field_lines::read_static(s, d.at);
            place(s, &[], line, Some(max.bytes), room, out, d)
        }
    }
}
