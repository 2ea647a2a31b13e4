#![tactic(auto)]

// Demand 3, the marked cases and worked blocks: theorems over the definitions of the crates below, and no code.
