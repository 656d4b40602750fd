//! What stands above a picture: its title and a line below that, by the words of the command line and the comments at
//! the head of the script.
ghost use Rattle.std.specs.Prelude.{◌≡◌, ◌∷◌, [], IfOk, MatchOption, option_map, slice_get};
ghost use Rattle.std.specs.String.{string_bytes};
ghost use Rattle.chart_top.specs.Heading.{comment_of, comment_title, comments_of, head_comments, is_at_stop, plain_title, subtitle_of, text_of, title_by, up_to_stop, without_space};
ghost use Rattle.lock_model.specs.Script.Lines.{lines_of};

use lock_model::Plan;
use script_read::split_line;
use std::alloc::{AllocError, Global};
use std::str;

/// What stands above a picture.
#[derive(Clone, Copy, Debug, PartialEq, Eq)]
pub struct Heading<'a> {
    pub title: &'a str,
    /// The line below the title.
    pub subtitle: &'a str,
}

impl<'a> Heading<'a> {
    /// Of a script, by its bytes: the title that is asked for, or else the first comment up to its full stop, or else
    /// the plain title; and below it the second comment.
    pub fn of(asked: Option<&'a str>, bytes: &'a [u8], plain: &'a str) -> Heading<'a>
        ensures title { result.title.now
            ≡ title_by (option_map (λ s. s.now) asked.entry) bytes.entry.now plain.entry.now }
        ensures subtitle { result.subtitle.now ≡ subtitle_of bytes.entry.now }
    {
        let (title, second) = comments(bytes);
        Heading {
            title: asked.or(title).unwrap_or(plain),
            subtitle: second.unwrap_or(""),
        }
    }
}

// Of the comments of the lines right behind the first one: the title that the first gives, and the second.
fn comments(bytes: &[u8]) -> (Option<&str>, Option<&str>)
    ensures first { option_map (λ s. s.now) result.0 ≡ comment_title bytes.now }
    ensures second { option_map (λ s. s.now) result.1 ≡ slice_get (head_comments bytes.now) 1 }
{
    let Some((_, behind)) = split_line(bytes) else {
        return (None, None);
    };
    let Some((first, others)) = split_comment(behind) else {
        return (None, None);
    };
    let title = text_of(up_to_stop(first.as_bytes()));
    (title, split_comment(others).map(|(second, _)| second))
}

// A text up to its first full stop, without that.
fn up_to_stop(text: &[u8]) -> &[u8]
    ensures { result.now ≡ up_to_stop text.now }
{
    for (n, byte) in text.iter().enumerate() {
        if is_at_stop(*byte, &text[n + 1..]) {
            return &text[..n];
        }
    }
    text
}

// Whether a byte with these behind it is a full stop.
fn is_at_stop(byte: u8, behind: &[u8]) -> bool
    ensures { result ≡ is_at_stop byte behind.now }
{
    match behind {
        [] => byte == b'.',
        [next, ..] => byte == b'.' && *next == b' ',
    }
}

// The comment of the first line, where that is a comment line, and what stands behind the line.
fn split_comment(bytes: &[u8]) -> Option<(&str, &[u8])>
    ensures { MatchOption result (comments_of (lines_of bytes.now) ≡ [])
        (λ cut. comments_of (lines_of bytes.now) ≡ cut.0.now ∷ comments_of (lines_of cut.1.now)) }
{
    let (line, behind) = split_line(bytes)?;
    Some((comment(line)?, behind))
}

// The comment of a line that begins with `#`.
fn comment(line: &[u8]) -> Option<&str>
    ensures { option_map (λ s. s.now) result ≡ comment_of line.now }
{
    match line {
        [b'#', text @ ..] => text_of(without_space(text)),
        [] | [_, ..] => None,
    }
}

// One space behind the `#` belongs to no comment.
fn without_space(text: &[u8]) -> &[u8]
    ensures { result.now ≡ without_space text.now }
{
    match text {
        [b' ', rest @ ..] => rest,
        [] | [_, ..] => text,
    }
}

// The text of bytes that are one.
fn text_of(bytes: &[u8]) -> Option<&str>
    ensures { option_map (λ s. s.now) result ≡ text_of bytes.now }
{
    str::from_utf8(bytes).ok()
}

/// The title of a picture for which nobody gave one.
pub fn plain_title(alloc: Global, plan: &Plan) -> Result<String, AllocError>
    ensures { IfOk result (λ title. string_bytes title ≡ plain_title plan.now) }
{
    let threads = plan.threads.as_slice().len();
    let word = if threads == 1 { "thread" } else { "threads" };
    format!(in alloc; "A run of {threads} {word}")
}
