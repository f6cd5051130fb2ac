// Merging and flooding over ranks: how many notices a flood can settle, whatever a rank stands for; no function.
// specs/ has the definitions, proofs/ the laws. The theorem is `flood_dies_out` of proofs/FloodDiesOut.antt.

#![tactic(auto)]
