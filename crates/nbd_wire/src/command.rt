//! The commands of requests. A command that has a name is not given by its number.
ghost use Rattle.std.specs.Prelude.{◌≡◌};
ghost use Rattle.nbd_wire.specs.Commands.{command_number, command_of, IsCommand};

/// What a request asks for.
#[derive(Clone, Copy, Debug, PartialEq, Eq)]
pub enum Command {
    Read,
    Write,
    Disconnect,
    Flush,
    Trim,
    Cache,
    WriteZeroes,
    Other(u16),
}

impl Command {
    /// The number that stands in a request.
    #[tactic(auto, unfolding(crate::specs::Commands::command_number))]
    pub fn number(self) -> u16
        ensures { result ≡ command_number self }
    {
        match self {
            Command::Read => 0,
            Command::Write => 1,
            Command::Disconnect => 2,
            Command::Flush => 3,
            Command::Trim => 4,
            Command::Cache => 5,
            Command::WriteZeroes => 6,
            Command::Other(number) => number,
        }
    }

    /// The command of this number.
    #[tactic(auto, unfolding(crate::specs::Commands::command_of, crate::specs::Commands::command_number))]
    pub fn of_number(number: u16) -> Command
        ensures named { result ≡ command_of number }
        ensures spelled { IsCommand result }
        ensures back { command_number result ≡ number }
    {
        match number {
            0 => Command::Read,
            1 => Command::Write,
            2 => Command::Disconnect,
            3 => Command::Flush,
            4 => Command::Trim,
            5 => Command::Cache,
            6 => Command::WriteZeroes,
            _ => Command::Other(number),
        }
    }
}
