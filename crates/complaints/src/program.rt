//! The program that speaks.

/// A program by what its sentences need: its name, the form of its command line, and what `TooLong` means of it.
#[derive(Clone, Copy, Debug, PartialEq, Eq)]
pub struct Program {
    pub name: &'static str,
    /// As it is typed, the name at first.
    pub form: &'static str,
    /// What is said at `TooLong`.
    pub too_long: &'static str,
}
