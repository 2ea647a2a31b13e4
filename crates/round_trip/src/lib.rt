#![tactic(auto)]

// A listing read back gives the table that was listed: a theorem over the definitions of the crates below, and no code.
