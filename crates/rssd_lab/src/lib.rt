//! A laboratory: lines of any number are played on a device over a die that counts its calls, and tables tell what was counted.
//! No list of the lines is held, so its memory does not grow with their number.
#![tactic(auto)]

mod laboratory;
mod on_die;
mod pace;
mod program;
mod ready;
mod score;
mod stage;
mod status;
mod telling;
mod top;

pub use laboratory::run;
pub use on_die::{run_asked, run_on};
pub use pace::{Pace, Paced};
pub use program::main_of;
pub use ready::{Ready, pair, plain, read_ready, worn};
pub use score::Score;
pub use stage::{Stage, run_stage};
pub use status::{Halt, NotRun, Outcome, Sources, Status, Stop};
pub use telling::Telling;
pub use top::lab;
