//! The table of options, as `clap` is told it.
ghost use Rattle.std.specs.Prelude.{◌≡◌, IfOk, [], false};
ghost use Rattle.clap.specs.Words.{app_of, rule_of};
ghost use Rattle.option_words.specs.Rule.{AllFit, FitsKind, app_with, operand_rule, operand_rules, option_rule, parser_of, rule_for};

use crate::given::OPERAND;
use crate::synopsis::{LongOption, Synopsis, ValueKind};
use clap::builder::ValueParser;
use clap::{Arg, Command};
use std::alloc::{AllocError, Global};

/// The whole rule.
pub fn rule<'a>(alloc: Global, synopsis: &Synopsis<'a>) -> Result<Command<'a>, AllocError>
    ensures rule { IfOk result (λ r. app_of r ≡ rule_for synopsis.now) }
    ensures fits { IfOk result (λ _. AllFit synopsis.now.options.now) }
{
    let mut command = begun(alloc, synopsis)?;
    for long in synopsis.options.iter() {
        command = command.arg(option(alloc, long))?;
    }
    Ok(command)
}

// The command with its operand, if it has one, and no option yet.
fn begun<'a>(alloc: Global, synopsis: &Synopsis<'a>) -> Result<Command<'a>, AllocError>
    ensures { IfOk result (λ r. app_of r ≡ app_with synopsis.now (operand_rules synopsis.now)) }
{
    let command = empty(alloc, synopsis);
    if synopsis.operands.is_empty() {
        return Ok(command);
    }
    command.arg(operand(alloc, synopsis.operands))
}

// The command with no argument yet.
fn empty<'a>(alloc: Global, synopsis: &Synopsis<'a>) -> Command<'a>
    ensures { app_of result ≡ app_with synopsis.now [] }
{
    Command::new(alloc, synopsis.program)
        .no_binary_name(true)
        .disable_help_flag(synopsis.help.is_none())
}

fn operand<'a>(alloc: Global, names: &'a [&'a str]) -> Arg<'a>
    ensures rule { rule_of result ≡ operand_rule names.entry }
    ensures own { result.global ≡ false }
{
    Arg::new(alloc, OPERAND)
        .value_name("OPERAND")
        .value_parser(names)
        .required(true)
}

// An option with one text.
fn option<'a>(alloc: Global, long: &LongOption<'a>) -> Arg<'a>
    ensures rule { rule_of result ≡ option_rule long.now }
    ensures own { result.global ≡ false }
    ensures fits { FitsKind long.now.kind }
{
    Arg::new(alloc, long.name)
        .long(long.name)
        .value_name(long.value_name)
        .value_parser(parser(long.kind))
}

// What a text is tried by.
fn parser<'a>(kind: ValueKind<'a>) -> ValueParser<'a>
    ensures parser { result ≡ parser_of kind.entry }
    ensures fits { FitsKind kind.entry }
{
    match kind {
        ValueKind::Number(least, most) => ValueParser::Unsigned(least as u64, most as u64),
        ValueKind::AnyText => ValueParser::String,
        ValueKind::OneOf(names) => ValueParser::Names(names),
    }
}
