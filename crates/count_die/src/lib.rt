//! A die that counts: over any die, it hands each call on and counts it for its block and page. Knows no page's meaning.
//! It is the plainest die over a die: what a die of your own has to say stands in `count.rt`, call by call.
#![tactic(auto)]

mod count;
mod tally;

pub use count::CountDie;
pub use tally::{Tally, Totals};

#[cfg(test)]
mod tests;
