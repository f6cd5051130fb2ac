// The three demands as theorems over the definitions of `world`; no function.
// specs/ has the definitions that they need beyond those, proofs/ the theorems: docs/PROMISES.md.

#![tactic(auto)]
