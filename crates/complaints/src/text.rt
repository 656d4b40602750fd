//! The words of the text that was written: its lines are words with one space between them.
ghost use Rattle.std.specs.Prelude.{◌≡◌, option_map};
ghost use Rattle.complaints.specs.Complaints.{halted_in, halts_in, has_waiter, is_of, queue_of, waits_in, word_at};

use script_read::{cut_word, split_at_byte, split_line};

/// A word of a line, counted from 0; where there is none, nothing.
pub fn word_at(line: &[u8], n: usize) -> &[u8]
    ensures { result.now ≡ word_at n line.now }
{
    let (mut word, mut behind) = cut_word(line);
    let mut left = n;
    while left > 0 {
        let Some(rest) = behind else {
            return b"";
        };
        (word, behind) = cut_word(rest);
        left -= 1;
    }
    word
}

/// The queue in which a thread waits.
pub fn queue_of<'a>(text: &'a [u8], thread: &[u8]) -> Option<&'a [u8]>
    ensures { option_map (λ q. q.now) result ≡ queue_of text.entry.now thread.now }
{
    let mut rest = text;
    while let Some((line, behind)) = split_line(rest) {
        if waits_in(line, thread) {
            return Some(word_at(line, 1));
        }
        rest = behind;
    }
    None
}

fn waits_in(line: &[u8], thread: &[u8]) -> bool
    ensures { result ≡ waits_in thread.now line.now }
{
    word_at(line, 0) == "queue".as_bytes()
        && (has_waiter(word_at(line, 9), thread) || has_waiter(word_at(line, 11), thread))
}

/// The queue in which a thread was halted, by its line `TICKET NAME halted QUEUE`.
pub fn halted_in<'a>(text: &'a [u8], thread: &[u8]) -> Option<&'a [u8]>
    ensures { option_map (λ q. q.now) result ≡ halted_in text.entry.now thread.now }
{
    let mut rest = text;
    while let Some((line, behind)) = split_line(rest) {
        if halts_in(line, thread) {
            return Some(word_at(line, 3));
        }
        rest = behind;
    }
    None
}

fn halts_in(line: &[u8], thread: &[u8]) -> bool
    ensures { result ≡ halts_in thread.now line.now }
{
    word_at(line, 2) == "halted".as_bytes() && word_at(line, 1) == thread
}

// Whether a list such as `t1@100,t2@50` has the thread.
fn has_waiter(list: &[u8], thread: &[u8]) -> bool
    ensures { result ≡ has_waiter thread.now list.now }
{
    let mut rest = list;
    while let Some((item, behind)) = split_at_byte(rest, b',') {
        if is_of(item, thread) {
            return true;
        }
        rest = behind;
    }
    is_of(rest, thread)
}

// Whether an item is of that thread: `t1@100` is of t1.
fn is_of(item: &[u8], thread: &[u8]) -> bool
    ensures { result ≡ is_of thread.now item.now }
{
    item.len() > thread.len() && item[thread.len()] == b'@' && item.starts_with(thread)
}
