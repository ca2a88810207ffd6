#![tactic(auto)]

// The machine: who runs, and the run, which can be paused.
pub mod run;
