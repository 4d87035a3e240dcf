// What document 01 asks of the unit beyond each contract, as theorems over the definitions: specs/ has what they say of a
// motion, proofs/ states and proves them.
#![tactic(auto)]
