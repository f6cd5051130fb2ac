// The mission's demands, each as one record with its proof, over every public call of the rooms below; no function.
// specs/ says for each number of document 01's list its reason, call by call; proofs/Demands.antt has the records.

#![tactic(auto)]
