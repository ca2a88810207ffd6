#![tactic(auto)]

// Theorems alone: the flat machine is the model's.
