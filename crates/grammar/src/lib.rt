#![tactic(auto)]

// The public grammar of YSON, and that a scan finds exactly its values. Definitions stand in specs/ and theorems in proofs/; there is no code.
