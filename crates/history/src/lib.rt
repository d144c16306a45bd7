#![tactic(auto)]

// The stream reader's calls in any order: what a history of them takes, hands out, skips and keeps. Definitions stand in specs/ and theorems in proofs/; there is no code.
