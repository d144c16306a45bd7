#![tactic(auto)]

// The automaton over tokens that decides where a value ends: its definitions stand in specs/. Crate `scan` runs it over the bytes of one value,
// and crates `kept` and `blocks` keep its state between the pieces of a stream. There is no code.
