// The entries of a list, for definitions, and proofs that several crates share; no function.
// To read it: `specs/Entries.antt` has the entries, and `specs/Prelude.antt` passes them on with the library's own words, under
// one name, for definitions; `proofs/Claim.antt` decides a claim about numbers by a computed test, for tables;
// `proofs/Choice.antt` has choices, `proofs/Lossless.antt` that what can be read back is not lost.
#![tactic(auto)]
