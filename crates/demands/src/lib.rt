#![tactic(auto)]

// What is demanded of more than one call: no second answer, and no 22 for a record that came from these calls. Definitions and laws alone.
