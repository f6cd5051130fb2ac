// Definitions and laws on lists, tests and words that the kit's library lacks; no function.
// specs/ has the definitions, proofs/ the laws: docs/MAP.md.

#![tactic(auto)]
