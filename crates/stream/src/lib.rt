#![tactic(auto)]

// A stream that is cut into pieces, and the count of readings. Definitions stand in specs/ and theorems in proofs/; there is no code.
