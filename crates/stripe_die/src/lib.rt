//! Two dies as one: the even blocks are those of the first die, the odd ones those of the second. Knows no page's meaning.
#![tactic(auto)]

mod half;
mod stripe;

pub use stripe::{StripeDie, StripeRefused, new};

#[cfg(test)]
mod tests;
