//! How the program ended. Its numbers are the exit codes.

/// The status of a call of the program.
#[derive(Clone, Copy, Debug, PartialEq, Eq)]
pub enum Status {
    /// The run ended with every thread at its end.
    Done = 0,
    /// The source is no script.
    BadScript = 1,
    /// The source failed.
    ReadFault = 2,
    /// The sink failed. What it took is the front of the text.
    WriteFault = 3,
    /// Memory was wanting. Nothing was written.
    NoMemory = 4,
    /// Of a scheduled run: a whole round of turns was idle. Of a run of threads: one was halted in its sleep.
    Stuck = 5,
    /// A lock order was refused.
    Reversed = 6,
    /// Of a run: the turns were used up. Of a schedule that a policy made: the script would be too long with it.
    TooLong = 7,
    /// The source has more than 1,048,576 bytes.
    TooBig = 8,
    /// The words are no form of the command line.
    Usage = 64,
}
