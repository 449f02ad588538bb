#![tactic(auto)]

// A field of a table: what it counts for beyond its bytes (RFC 9204 3.2.1, RFC 7541 4.1).
pub const ESTIMATED_OVERHEAD_BYTES: usize = 32;
