//! Scripts in brief.
use std::alloc::Global;
use std::test::Fail;

/// A text, where `;` is the end of a line, and `[3 signal a#;]` stands for `signal a0;signal a1;signal a2;`.
pub fn lines_of(alloc: Global, brief: &str) -> Result<String, Fail> {
    let mut text = String::new(alloc);
    for part in brief.split('[') {
        match part.split_once(']') {
            None => text.push_str(part)?,
            Some((repeated, behind)) => {
                push_repeated(&mut text, alloc, repeated)?;
                text.push_str(behind)?;
            }
        }
    }
    Ok(text.replace(alloc, ";", "\n")?)
}

// A text as often as the number in front of it says, with 0, 1 and so on for `#`.
fn push_repeated(out: &mut String, alloc: Global, repeated: &str) -> Result<(), Fail> {
    let (times, text) = repeated.split_once(' ').ok_or("a number stands in front")?;
    for n in 0..times.parse::<u32>().unwrap_or(0) {
        out.push_str(&text.replace(alloc, "#", &format!(in alloc; "{n}")?)?)?;
    }
    Ok(())
}
