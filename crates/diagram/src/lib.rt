// The finished diagram of a meaning, and adding it to a store. All of it is in specs/ and proofs/.
#![tactic(auto)]
