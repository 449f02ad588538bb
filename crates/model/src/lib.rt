// The abstract table of the specification: this crate holds definitions and theorems alone, and the bounds by name.
#![tactic(auto)]

// Distinct entries of a section.
pub const SECTION_ENTRIES: usize = 32;

// Uses of one entry in a section.
pub const ENTRY_USES: usize = 255;

// Sections in the queue.
pub const QUEUE_PLACES: usize = 32;

// Distinct blocked values.
pub const BLOCKED_VALUES: usize = 64;

// Blocked sections; a blocked maximum stays below it.
pub const BLOCKED_SECTIONS: usize = 65535;

// The largest capacity that the protocol knows.
pub const LARGEST_CAPACITY: usize = 1073741823;
