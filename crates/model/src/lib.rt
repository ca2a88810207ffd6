#![tactic(auto)]

// No code: specs/ holds the definitions that every contract cites, proofs/ the theorems about them.
