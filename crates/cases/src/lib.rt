// The documents' cases as a table of calls and what they must answer. All of it is in specs/ and proofs/.
#![tactic(auto)]
