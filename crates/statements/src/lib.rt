#![tactic(auto)]

// One statement of a task: it takes up a command, or goes on inside one.
pub mod begin;
pub mod step;
