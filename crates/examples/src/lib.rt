#![tactic(auto)]

// The worked examples of document 01 that are proved of the definitions: one table (specs/Examples.antt), one claim about all its
// rows (proofs/All.antt). No code.
