#![tactic(auto)]

// What UTF-8 is, and what follows for lines, their words and plain operands: theorems over the definitions of the
// crates below, and no code.
