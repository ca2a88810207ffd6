#![tactic(auto)]

// The statements of a transaction: GET, PUT and COMMIT.
pub mod accesses;
mod bits;
pub mod commits;
