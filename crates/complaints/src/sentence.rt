//! The sentence for standard error.
ghost use Rattle.std.specs.Prelude.{◌≡◌, ◌++◌, [], IfOk, OnOk, codes, option_map, unwrap_or};
ghost use Rattle.lock_model.specs.Script.Lines.{lines_of};
ghost use Rattle.complaints.specs.Complaints.{complaint_of, each_told, fault_said, first_line, fixed_of, found_in, halt_of, is_reversal, meaning_by, reversal_said, reversed_said, sentence_of, speaker_of, stuck_said, verb_first, verb_then, wait_of};

use crate::program::Program;
use crate::status::Status;
use crate::text::{halted_in, queue_of, word_at};
use script_read::{meaning_of, number_of, split_line};
use std::alloc::{AllocError, Global};

/// The sentence that belongs to a status and to the text that was written, as a line with its end, and in front of it
/// who speaks; nothing where all went well. It takes memory for that line alone.
///
/// ```
/// let line = complaint(alloc, LOCKRUN, Status::BadScript, b"line 5 code 11\n")?;
/// // lockrun: line 5: the lock isn't held here (code 11)
/// ```
pub fn complaint(
    alloc: Global,
    program: Program,
    status: Status,
    text: &[u8],
) -> Result<Vec<u8>, AllocError>
    ensures { IfOk result (λ line. line.items ≡ complaint_of program status text.now) }
{
    let mut line = Vec::new(alloc);
    if status == Status::Done {
        return Ok(line);
    }
    line.extend_from_slice(speaker(program, status).as_bytes())?;
    line.extend_from_slice(b": ")?;
    push_sentence(&mut line, program, status, text)?;
    line.extend_from_slice(b"\n")?;
    Ok(line)
}

/// Who speaks: the program by its name, or `usage` in front of the form of its command line.
pub fn speaker(program: Program, status: Status) -> &'static str
    ensures { result.now ≡ speaker_of program status }
{
    match status {
        Status::Usage => "usage",
        Status::Done
        | Status::BadScript
        | Status::ReadFault
        | Status::WriteFault
        | Status::NoMemory
        | Status::Stuck
        | Status::Reversed
        | Status::TooLong
        | Status::TooBig => program.name,
    }
}

/// The sentence of a status that needs nothing of the text, alone and without memory; `None` for any other status.
pub fn fixed_complaint(program: Program, status: Status) -> Option<&'static str>
    ensures { option_map (λ s. s.now) result ≡ fixed_of program status }
{
    match status {
        Status::Done | Status::BadScript | Status::Stuck | Status::Reversed => None,
        Status::ReadFault => Some("could not read standard input"),
        Status::WriteFault => Some("could not write standard output"),
        Status::NoMemory => Some("out of memory"),
        Status::TooLong => Some(program.too_long),
        Status::TooBig => Some("the source has more than 1,048,576 bytes"),
        Status::Usage => Some(program.form),
    }
}

// The sentence alone, without who speaks.
fn push_sentence(
    out: &mut Vec<u8>,
    program: Program,
    status: Status,
    text: &[u8],
) -> Result<(), AllocError>
    ensures { OnOk result (out.new.items
        ≡ out.old.items ++ unwrap_or (sentence_of program status text.now) []) }
{
    match status {
        Status::BadScript => push_fault(out, text),
        Status::Stuck => push_stuck(out, text),
        Status::Reversed => push_reversed(out, text),
        Status::Done
        | Status::ReadFault
        | Status::WriteFault
        | Status::NoMemory
        | Status::TooLong
        | Status::TooBig
        | Status::Usage => {
            let sentence = fixed_complaint(program, status).unwrap_or("");
            out.extend_from_slice(sentence.as_bytes())
        }
    }
}

// Of the line `line L code C`.
fn push_fault(out: &mut Vec<u8>, text: &[u8]) -> Result<(), AllocError>
    ensures { OnOk result (out.new.items
        ≡ out.old.items ++ fault_said (first_line (lines_of text.now))) }
{
    let line = first_line(text);
    let code = word_at(line, 3);
    let Some(meaning) = meaning_by(code) else {
        out.extend_from_slice(b"the source is no script")?;
        return Ok(());
    };
    out.extend_from_slice(b"line ")?;
    out.extend_from_slice(word_at(line, 1))?;
    out.extend_from_slice(b": ")?;
    out.extend_from_slice(meaning.as_bytes())?;
    out.extend_from_slice(b" (code ")?;
    out.extend_from_slice(code)?;
    out.extend_from_slice(b")")?;
    Ok(())
}

fn first_line(text: &[u8]) -> &[u8]
    ensures { result.now ≡ first_line (lines_of text.now) }
{
    match split_line(text) {
        Some((line, _)) => line,
        None => b"",
    }
}

fn meaning_by(code: &[u8]) -> Option<&'static str>
    ensures { option_map (λ s. s.now) result ≡ meaning_by code.now }
{
    match u8::try_from(number_of(code)?) {
        Ok(code) => meaning_of(code),
        Err(_) => None,
    }
}

// Who waits for what in a scheduled run, and who was halted on what in a run of threads.
fn push_stuck(out: &mut Vec<u8>, text: &[u8]) -> Result<(), AllocError>
    ensures { OnOk result (out.new.items ≡ out.old.items ++ stuck_said text.now) }
{
    out.extend_from_slice(b"stuck")?;
    push_each(out, text, false)?;
    push_each(out, text, true)?;
    Ok(())
}

// Of each thread, by its line `thread NAME base B eff E`, for what it waits, or on what it was halted.
fn push_each(out: &mut Vec<u8>, text: &[u8], halts: bool) -> Result<(), AllocError>
    ensures { OnOk result (out.new.items ≡ out.old.items
        ++ each_told halts text.now (lines_of text.now) (codes ": ") (verb_first halts)) }
{
    let mut between: &[u8] = b": ";
    let mut verb = verb_first(halts);
    let mut rest = text;
    while let Some((line, behind)) = split_line(rest) {
        if let Some((thread, queue)) = found_in(halts, text, line) {
            out.extend_from_slice(between)?;
            out.extend_from_slice(thread)?;
            out.extend_from_slice(verb)?;
            out.extend_from_slice(queue)?;
            between = b", ";
            verb = verb_then(halts);
        }
        rest = behind;
    }
    Ok(())
}

fn verb_first(halts: bool) -> &'static [u8]
    ensures { result.now ≡ verb_first halts }
{
    if halts {
        b" was halted on "
    } else {
        b" waits for "
    }
}

fn verb_then(halts: bool) -> &'static [u8]
    ensures { result.now ≡ verb_then halts }
{
    if halts { b" on " } else { b" for " }
}

fn found_in<'a>(halts: bool, text: &'a [u8], line: &'a [u8]) -> Option<(&'a [u8], &'a [u8])>
    ensures { option_map (λ w. (w.0.now, w.1.now)) result
        ≡ found_in halts text.entry.now line.entry.now }
{
    if halts {
        halt_of(text, line)
    } else {
        wait_of(text, line)
    }
}

// The thread that a line is of, and the queue in which it waits.
fn wait_of<'a>(text: &'a [u8], line: &'a [u8]) -> Option<(&'a [u8], &'a [u8])>
    ensures { option_map (λ w. (w.0.now, w.1.now)) result ≡ wait_of text.entry.now line.entry.now }
{
    if word_at(line, 0) != "thread".as_bytes() {
        return None;
    }
    let thread = word_at(line, 1);
    let queue = queue_of(text, thread)?;
    Some((thread, queue))
}

// The thread that a line is of, and the queue in which it was halted.
fn halt_of<'a>(text: &'a [u8], line: &'a [u8]) -> Option<(&'a [u8], &'a [u8])>
    ensures { option_map (λ w. (w.0.now, w.1.now)) result ≡ halt_of text.entry.now line.entry.now }
{
    if word_at(line, 0) != "thread".as_bytes() {
        return None;
    }
    let thread = word_at(line, 1);
    let queue = halted_in(text, thread)?;
    Some((thread, queue))
}

// Which thread was refused which lock, under which class, by the lines `TICKET NAME reversed LOCK CLASS`.
fn push_reversed(out: &mut Vec<u8>, text: &[u8]) -> Result<(), AllocError>
    ensures { OnOk result (out.new.items ≡ out.old.items ++ reversed_said text.now) }
{
    out.extend_from_slice(b"reversed")?;
    let mut between: &[u8] = b": ";
    let mut rest = text;
    while let Some((line, behind)) = split_line(rest) {
        if is_reversal(line) {
            out.extend_from_slice(between)?;
            push_reversal(out, line)?;
            between = b", ";
        }
        rest = behind;
    }
    Ok(())
}

// Whether a line is one of these, and not the `order CLASS CLASS N` of a profile.
fn is_reversal(line: &[u8]) -> bool
    ensures { result ≡ is_reversal line.now }
{
    word_at(line, 2) == "reversed".as_bytes() && word_at(line, 0) != "order".as_bytes()
}

fn push_reversal(out: &mut Vec<u8>, line: &[u8]) -> Result<(), AllocError>
    ensures { OnOk result (out.new.items ≡ out.old.items ++ reversal_said line.now) }
{
    out.extend_from_slice(word_at(line, 1))?;
    out.extend_from_slice(b" may not take ")?;
    out.extend_from_slice(word_at(line, 3))?;
    out.extend_from_slice(b" under class ")?;
    out.extend_from_slice(word_at(line, 4))?;
    Ok(())
}
