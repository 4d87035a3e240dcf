// The worked examples of document 01, proved together as one table: specs/ states them, proofs/ proves them.
#![tactic(auto)]
