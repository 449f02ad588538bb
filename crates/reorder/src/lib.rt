#![tactic(auto)]

// The peer's reports in any order that keeps each stream's own. Definitions and laws alone.
