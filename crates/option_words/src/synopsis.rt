//! What the words of a command line may be: a table of options.

/// What a text has to be.
#[derive(Clone, Copy, Debug)]
pub enum ValueKind<'a> {
    /// A number from the least to the most, in decimal digits. One plus may stand first, and zeros.
    Number(u32, u32),
    /// Any text.
    AnyText,
    /// One of these names.
    OneOf(&'a [&'a str]),
}

/// An option, as `--NAME TEXT` or `--NAME=TEXT`.
#[derive(Clone, Copy, Debug)]
pub struct LongOption<'a> {
    /// The name, without its hyphens.
    pub name: &'a str,
    pub kind: ValueKind<'a>,
    /// What the text is called.
    pub value_name: &'a str,
}

/// What stands above the options in the help of a program.
#[derive(Clone, Copy, Debug)]
pub struct Help<'a> {
    /// What the program does.
    pub about: &'a str,
    /// The form of its command line.
    pub usage: &'a str,
}

/// What the words of a program's command line may be.
#[derive(Clone, Copy, Debug)]
pub struct Synopsis<'a> {
    /// The program's name.
    pub program: &'a str,
    /// The names of which just one stands as a plain word. Where there are none, no plain word does.
    pub operands: &'a [&'a str],
    /// The options, each of which may stand once.
    pub options: &'a [LongOption<'a>],
    /// What each word does that a user may write, a line each, as help has them.
    pub lines: &'a [&'a str],
    /// Where this is `Some`, `--help` and `-h` ask for a help.
    pub help: Option<Help<'a>>,
}
