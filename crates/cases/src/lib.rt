#![tactic(auto)]

// The cases that the specification marks with a star: this crate holds a table and one claim, and no code.
