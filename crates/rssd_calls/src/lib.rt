//! The top call on sources and sinks in memory: words, a script and an image against the status, the output and the image that are
//! wanted. This crate has tests alone, and no public item.
#![tactic(auto)]

#[cfg(test)]
mod tests;
