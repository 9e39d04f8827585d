//! Scripts run on a device: what a session answers a script's lines, and the top call of the program.
#![tactic(auto)]

mod program;
mod refusal;
mod row;
pub mod run;
mod status;

pub use program::main_of;
pub use refusal::image_line;
pub use run::top::rssd;
