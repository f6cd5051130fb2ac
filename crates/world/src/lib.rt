// The whole network as a world, one event at a time. specs/ has its definitions, proofs/ the laws: docs/MAP.md.

#![tactic(auto)]
