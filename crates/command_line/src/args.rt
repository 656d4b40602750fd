//! What the words of a command line say.
ghost use Rattle.std.specs.Prelude.{◌≡◌};
ghost use Rattle.command_line.specs.Forms.{command_of};

/// What the program is to do.
#[derive(Clone, Copy, Debug, PartialEq, Eq)]
pub enum Command {
    /// Read the script, and print how much of each thing it has.
    Check,
    /// Make the scheduled run.
    Step,
    /// Run the threads, each beside the others.
    Run,
    /// Read a script of ticks, and run it.
    Ticks,
    /// Make the scheduled run, and print what its history shows of each lock.
    Profile,
}

impl Command {
    // The command that a word names.
    pub(crate) fn named(word: &str) -> Option<Command>
        ensures { result ≡ command_of word.now }
    {
        match word {
            "check" => Some(Command::Check),
            "step" => Some(Command::Step),
            "run" => Some(Command::Run),
            "ticks" => Some(Command::Ticks),
            "profile" => Some(Command::Profile),
            _ => None,
        }
    }
}

/// What the words of a command line say.
#[derive(Clone, Copy, Debug, PartialEq, Eq)]
pub struct LockrunArgs {
    pub command: Command,
    /// Chains of each sort, from 1 to 64.
    pub chains: u32,
    /// Turns of the scheduled run at most, from 1 to 1,000,000. They bound no other command.
    pub turns: u32,
}
