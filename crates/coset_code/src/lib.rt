//! Coset codes: the message is the sum over GF(2) of the columns of the charged cells.
#![tactic(auto)]

mod coordinates;
mod coset;
mod laws;
mod message;
mod rows;
mod solve;
mod system;
mod turned;

pub use coset::{Columns, Coset, CosetRefusal, OutOfMemory};
pub use laws::{basis_solution_is_unique, basis_solutions_are_tested, free_sums_are_tested};

#[cfg(test)]
mod tests;
