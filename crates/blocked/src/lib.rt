// The blocked sections, by their largest reference.
#![tactic(auto)]

ghost use Rattle.std.specs.Prelude.{◌≡◌, Some, true, ◌<◌, ◌≤◌, eqb, position};
ghost use Rattle.model.specs.Bounds.{blocked_values, blocked_sections};
ghost use Rattle.blocked.specs.Waiting.{value_at, values_of, sum_of, keeps_count, counted, blocking, let_go};

use model::{BLOCKED_SECTIONS, BLOCKED_VALUES};

// A largest reference, and how many blocked sections have it.
#[repr(C)]
#[derive(Clone, Copy, PartialEq, Eq)]
pub struct Value {
    pub largest: usize,
    pub sections: usize,
}

// The blocked sections: how many there are in all, and the first `distinct` values. Fixed memory, whose layout C knows.
#[repr(C)]
#[derive(Clone, Copy, PartialEq, Eq)]
pub struct Waiting {
    pub total: usize,
    pub distinct: usize,
    pub values: [Value; BLOCKED_VALUES],
}

// Whether the total is the sum of the sections.
fn sums(waiting: &Waiting) -> bool
    requires { waiting.now.distinct ≤ blocked_values }
    ensures { result ≡ eqb (sum_of (values_of waiting.now)) waiting.now.total }
{
    let mut left = waiting.total;
    for value in &waiting.values[..waiting.distinct] {
        let Some(rest) = left.checked_sub(value.sections) else {
            return false;
        };
        left = rest;
    }
    left == 0
}

// Whether the total is the sum of the sections, and within its bound.
pub fn waiting_ok(waiting: &Waiting) -> bool
    ensures { result ≡ keeps_count waiting.now }
{
    if waiting.distinct > BLOCKED_VALUES {
        return false;
    }
    if waiting.total > BLOCKED_SECTIONS {
        return false;
    }
    sums(waiting)
}

// The place of a largest reference among the blocked ones.
fn value_at(waiting: &Waiting, largest: usize) -> Option<usize>
    requires { waiting.now.distinct ≤ blocked_values }
    ensures { result ≡ position (λ v. eqb v.largest largest) (values_of waiting.now) }
{
    waiting.values[..waiting.distinct]
        .iter()
        .position(|value| value.largest == largest)
}

// One more blocked section with the largest reference at a place.
fn block_again(waiting: &Waiting, largest: usize, i: usize) -> Waiting
    requires { (keeps_count waiting.now ≡ true) × (waiting.now.total < blocked_sections) × (i ≡ value_at largest (values_of waiting.now)) × (i < waiting.now.distinct) }
    ensures { counted waiting.now (Some result) ≡ blocking waiting.now largest }
{
    let mut next = *waiting;
    next.values[i] = Value {
        largest,
        sections: waiting.values[i].sections + 1,
    };
    next.total += 1;
    next
}

// The first blocked section with a largest reference, where a place is free.
fn block_first(waiting: &Waiting, largest: usize) -> Option<Waiting>
    requires { (keeps_count waiting.now ≡ true) × (waiting.now.total < blocked_sections) × (waiting.now.distinct ≤ value_at largest (values_of waiting.now)) }
    ensures { counted waiting.now result ≡ blocking waiting.now largest }
{
    let distinct = waiting.distinct;
    if distinct >= BLOCKED_VALUES {
        return None;
    }
    let mut next = *waiting;
    next.values[distinct] = Value {
        largest,
        sections: 1,
    };
    next.distinct += 1;
    next.total += 1;
    Some(next)
}

// The blocked sections with one more of a largest reference; none where a bound would be passed.
pub fn block(waiting: &Waiting, largest: usize) -> Option<Waiting>
    ensures { counted waiting.now result ≡ blocking waiting.now largest }
{
    if !waiting_ok(waiting) {
        return None;
    }
    if waiting.total >= BLOCKED_SECTIONS {
        return None;
    }
    match value_at(waiting, largest) {
        Some(i) => Some(block_again(waiting, largest, i)),
        None => block_first(waiting, largest),
    }
}

// The blocked sections whose largest reference is above a count; the places that fall free are cleared.
#[tactic(auto, using(crate::proofs::Counting::few_values))]
pub fn let_go(waiting: &Waiting, known: usize) -> Waiting
    ensures { result ≡ let_go waiting.now known }
{
    if !waiting_ok(waiting) {
        return *waiting;
    }
    let none = Value {
        largest: 0,
        sections: 0,
    };
    let mut values = [none; BLOCKED_VALUES];
    let mut total = 0;
    let mut kept = 0;
    for &value in &waiting.values[..waiting.distinct] {
        if value.largest > known {
            values[kept] = value;
            kept += 1;
            total += value.sections;
        }
    }
    Waiting {
        total,
        distinct: kept,
        values,
    }
}
