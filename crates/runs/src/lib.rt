// What a store answers that either opening, in either order, and any calls after it have led to. All of it is in specs/ and proofs/.
#![tactic(auto)]
