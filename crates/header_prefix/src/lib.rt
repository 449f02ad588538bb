// The section prefix, RFC 9204 4.5.1: the required insert count and the base.
#![tactic(auto)]

ghost use Rattle.std.specs.Prelude.{◌≡◌, ◌≤◌};
ghost use Rattle.answers.specs.Answer.{answered};
ghost use Rattle.std.proofs.Math.Option.{some};
ghost use Rattle.ring.specs.Ring.{largest_count};
ghost use Rattle.header_prefix.specs.Prefix.{given, not_zero, required_count, base_of, prefix_of, prefix_at};

use answers::Refusal;
use field::ESTIMATED_OVERHEAD_BYTES;
use ring::LARGEST_COUNT;

// A prefix that was read: the required insert count, the base, and the position past both.
#[derive(Clone, Copy)]
pub struct Prefix {
    pub required: usize,
    pub base: usize,
    pub next: usize,
}

const LARGEST_BASE: usize = 9223372036854775807;

const COUNT_WIDTH: u32 = 8;

const DELTA_WIDTH: u32 = 7;

// The required insert count from the encoded one, where that gives any.
#[tactic(auto, using(crate::proofs::Counts::wrapped_le), unfolding(crate::specs::Prefix::required_count))]
fn required_count(total: usize, capacity: usize, encoded: u64) -> Option<usize>
    requires { total ≤ largest_count }
    ensures { given result ≡ required_count total capacity encoded }
{
    if encoded == 0 {
        return Some(0);
    }
    let max_entries = capacity / ESTIMATED_OVERHEAD_BYTES;
    let full_range = 2 * max_entries;
    if (full_range as u64) < encoded {
        return None;
    }
    let max_value = total + max_entries;
    let wrapped = max_value / full_range * full_range;
    let required = wrapped + encoded as usize - 1;
    if max_value < required {
        if required <= full_range {
            return None;
        }
        return not_zero(required - full_range);
    }
    not_zero(required)
}

// A count that is not 0.
fn not_zero(count: usize) -> Option<usize>
    ensures { given result ≡ not_zero (some count) }
{
    if count == 0 {
        return None;
    }
    Some(count)
}

// The base of a section with a required insert count.
#[tactic(auto, unfolding(crate::specs::Prefix::base_of))]
fn base_of(required: usize, below: bool, delta: u64) -> Result<usize, Refusal>
    ensures { answered result ≡ base_of required below delta }
{
    if below {
        if required as u64 <= delta {
            return Err(Refusal::BadBaseIndex);
        }
        return Ok(required - delta as usize - 1);
    }
    if LARGEST_BASE < required {
        return Err(Refusal::BadBaseIndex);
    }
    if ((LARGEST_BASE - required) as u64) < delta {
        return Err(Refusal::BadBaseIndex);
    }
    Ok(required + delta as usize)
}

// The prefix from its two integers; below and delta are S and Delta Base of 4.5.1.2.
fn prefix_of(
    total: usize,
    capacity: usize,
    encoded: u64,
    below: bool,
    delta: u64,
    next: usize,
) -> Result<Prefix, Refusal>
    requires { total ≤ largest_count }
    ensures { answered result ≡ prefix_of total below delta next (required_count total capacity encoded) }
{
    let Some(required) = required_count(total, capacity, encoded) else {
        return Err(Refusal::BadInsertCount);
    };
    let base = base_of(required, below, delta)?;
    if total < required {
        return Err(Refusal::MissingRefs);
    }
    Ok(Prefix {
        required,
        base,
        next,
    })
}

// The prefix at a position, for a table of a total of inserts and a capacity.
#[tactic(auto, unfolding(crate::specs::Prefix::prefix_at))]
pub fn read_prefix(s: &[u8], at: usize, total: usize, capacity: usize) -> Result<Prefix, Refusal>
    ensures { answered result ≡ prefix_at s.now at total capacity }
{
    if LARGEST_COUNT < total {
        return Err(Refusal::BadCall);
    }
    let count = prefix_int::read(s, at, COUNT_WIDTH)?;
    let delta = prefix_int::read(s, count.next, DELTA_WIDTH)?;
    prefix_of(
        total,
        capacity,
        count.value,
        delta.flags == 1,
        delta.value,
        delta.next,
    )
}
