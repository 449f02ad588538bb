// A script's call that compares two tables: the whole records, and the live entries' strings.
#![tactic(auto)]

use dynamic::Table;
use ring::Ring;
use script::answer::Values;
use script::values;
use script_show::{byte_of, strings_of};

// Whether the entries after the first gone ones of two rings have the same strings.
fn same_entry(a: &Ring, x: &[u8], i: usize, b: &Ring, y: &[u8], j: usize) -> bool {
    let (one, other) = (strings_of(a, i), strings_of(b, j));
    if one.name != other.name || one.value != other.value {
        return false;
    }
    let len = u32::from(one.name) + u32::from(one.value);
    let (p, q) = (u32::from(one.start), u32::from(other.start));
    (p..p + len)
        .zip(q..q + len)
        .all(|(p, q)| byte_of(x, p) == byte_of(y, q))
}

// Whether two rings that keep their rules have the same strings.
fn same_strings(a: &Ring, x: &[u8], b: &Ring, y: &[u8]) -> bool {
    if !a.sound() || !b.sound() {
        return false;
    }
    let live = a.inserted.saturating_sub(a.dropped);
    if live != b.inserted.saturating_sub(b.dropped) {
        return false;
    }
    (a.dropped..a.inserted)
        .zip(b.dropped..b.inserted)
        .all(|(i, j)| same_entry(a, x, i, b, y, j))
}

// Compares two tables, each with its arena.
pub fn compare(a: &Table, x: &[u8], b: &Table, y: &[u8]) -> Values {
    values![a == b, same_strings(&a.ring, x, &b.ring, y)]
}
