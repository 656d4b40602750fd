//! Calls of `lockchart`: titles and windows as a user sees them, ends that fail, a source that is too big, words that
//! are no form, and how what is written in each form begins and ends.
use crate::fixtures::{Case, Ends, FIRST, MOST, NEVER, REVERSED, TOO_MANY, check_row};
use chart_command::Form;
use chart_layout::Chart;
use chart_top::{Heading, Renderer, lockchart, lockchart_by};
use complaints::Status::{BadScript, Done, ReadFault, TooBig, Usage, WriteFault};
use lock_model::Plan;
use run_tracks::Rows;
use std::alloc::{AllocError, Global};
use std::test::Fail;

// A renderer that spells what it is given.
struct Spelled;

impl Renderer for Spelled {
    ghost renders = { λ form plan rows chart title subtitle text. Unit {0} };

    fn render(
        &self,
        alloc: Global,
        form: Form,
        _plan: &Plan,
        _rows: &Rows,
        chart: &Chart,
        heading: Heading<'_>,
    ) -> Result<Vec<u8>, AllocError> {
        let Heading { title, subtitle } = heading;
        let (first, last, turns) = (chart.first, chart.last, chart.turns);
        let text = format!(in alloc; "{form:?} {first} {last} {turns} {title}/{subtitle}")?;
        Ok(text.into_bytes())
    }
}

// As FIRST, with comments and a turn less.
const TITLED: &str = "lockrun 1;# A bus;#and who holds it;# first;\
    mutex m a;thread t 100;lock m;unlock m;end;done;";

// A comment that isn't at the head.
const BELOW: &str = "lockrun 1;;# A bus;thread t 100;end;thread u 100;end;done;";

// Comments that say nothing, and one that begins with a blank.
const BLANK: &str = "lockrun 1;#;#  bus;thread t 100;end;done;";

// By the words and the script what a renderer is given: the form, the first row and the last, the turns, the heading.
const GIVEN: &[(&str, &str, &str)] = &[
    ("", FIRST, "Svg 0 3 3 A run of 1 thread/"),
    ("", TITLED, "Svg 0 2 2 A bus/and who holds it"),
    ("", BELOW, "Svg 0 0 0 A run of 2 threads/"),
    ("", BLANK, "Svg 0 0 0 / bus"),
    (
        "--title The_bus",
        TITLED,
        "Svg 0 2 2 The bus/and who holds it",
    ),
    ("--title=", FIRST, "Svg 0 3 3 /"),
    ("--title=", TITLED, "Svg 0 2 2 /and who holds it"),
    (
        "--form html --from 1",
        FIRST,
        "Html 1 3 3 A run of 1 thread/",
    ),
    (
        "--form=trace --to=2",
        FIRST,
        "Trace 0 2 3 A run of 1 thread/",
    ),
    ("--from 2 --to 2", FIRST, "Svg 2 2 3 A run of 1 thread/"),
    ("--from 2 --to 9", FIRST, "Svg 2 3 3 A run of 1 thread/"),
    ("--from 8 --to 9", FIRST, "Svg 3 3 3 A run of 1 thread/"),
    ("--turns 2", FIRST, "Svg 0 2 2 A run of 1 thread/"),
    ("--turns 2 --to 3", FIRST, "Svg 0 2 2 A run of 1 thread/"),
];

#[test]
fn what_a_renderer_is_given(rt: HostRuntime) -> Result<(), Fail> {
    for &(line, script, text) in GIVEN {
        let case = (line, script, NEVER, NEVER, Done, text);
        check_row(line, gives(rt.alloc(), &case)?)?;
    }
    Ok(())
}

// A script that ends its thread with a lock held.
const FAULTY: &str = "lockrun 1;mutex m a;thread t 1;lock m;end;";

// FIRST has 68 bytes: seventeen calls of the source, and one that finds its end. Its picture has 28 bytes: seven calls
// of the sink, and the flush. The text of a case is what the sink holds in the end, or what is told of a faulty script.
const CASES: &[Case] = &[
    ("", FIRST, 0, NEVER, ReadFault, ""),
    ("", FIRST, 8, NEVER, ReadFault, ""),
    ("", FIRST, 17, NEVER, ReadFault, ""),
    ("", FIRST, NEVER, 0, WriteFault, ""),
    ("", FIRST, NEVER, 1, WriteFault, "Svg "),
    ("", FIRST, NEVER, 2, WriteFault, "Svg 0 3 "),
    ("", FIRST, NEVER, 3, WriteFault, "Svg 0 3 3 A "),
    ("", FIRST, NEVER, 4, WriteFault, "Svg 0 3 3 A run "),
    ("", FIRST, NEVER, 5, WriteFault, "Svg 0 3 3 A run of 1"),
    ("", FIRST, NEVER, 6, WriteFault, "Svg 0 3 3 A run of 1 thr"),
    (
        "",
        FIRST,
        NEVER,
        7,
        WriteFault,
        "Svg 0 3 3 A run of 1 thread/",
    ),
    ("", TOO_MANY, NEVER, NEVER, TooBig, ""),
    ("", MOST, NEVER, NEVER, BadScript, "line 1 code 1\n"),
    (
        "--form html",
        FAULTY,
        NEVER,
        NEVER,
        BadScript,
        "line 5 code 14\n",
    ),
    // Nothing is read, since the source would fail at its first call.
    ("step", FIRST, 0, NEVER, Usage, ""),
    ("--from 2 --to 1", FIRST, 0, NEVER, Usage, ""),
    ("--form png", FIRST, 0, NEVER, Usage, ""),
    ("--help=svg", FIRST, 0, NEVER, Usage, ""),
];

#[test]
fn ends_in_memory(rt: HostRuntime) -> Result<(), Fail> {
    for case in CASES {
        check_row(case.0, gives(rt.alloc(), case)?)?;
    }
    Ok(())
}

// Whether a call with the renderer that spells gives what its case says.
fn gives(alloc: Global, case: &Case) -> Result<bool, Fail> {
    let (line, script, source_fails, sink_fails, status, text) = *case;
    let (held, fault) = if status == BadScript {
        ("", text)
    } else {
        (text, "")
    };
    let mut ends = Ends::failing(alloc, line, &[script], source_fails, sink_fails)?;
    let drawn = lockchart_by(
        &Spelled,
        alloc,
        &ends.words,
        &mut ends.source,
        &mut ends.sink,
    );
    let told = drawn.status == status && drawn.fault.as_slice() == fault.as_bytes();
    Ok(told && ends.text() == held)
}

const STUCK: &str = "lockrun 1;mutex m a;cond c m;thread t 100;lock m;wait c;unlock m;end;done;";

// How what is written begins and ends, whatever becomes of the run.
const WRITTEN: &[(&str, &str, &str, &str)] = &[
    ("--form svg", TITLED, "<svg ", "</svg>\n"),
    ("--form html", TITLED, "<!doctype html>\n", "</html>\n"),
    ("--form trace", TITLED, "{", "]}\n"),
    ("--form text", TITLED, "# A bus\n# turn ", " end\n"),
    ("--form json", TITLED, "{\"first\":0,", "]}\n"),
    ("", STUCK, "<svg ", "</svg>\n"),
    ("", REVERSED, "<svg ", "</svg>\n"),
    ("--turns 1", FIRST, "<svg ", "</svg>\n"),
    ("--help", "", "Draws ", "Print help\n"),
    ("--turns 1 -h", "", "Draws ", "Print help\n"),
];

#[test]
fn forms(rt: HostRuntime) -> Result<(), Fail> {
    for &(line, script, begins, ends) in WRITTEN {
        check_row(line, is_drawn(rt.alloc(), line, script, begins, ends)?)?;
    }
    Ok(())
}

// Whether a call is done, and what it writes begins and ends so.
fn is_drawn(
    alloc: Global,
    line: &str,
    script: &str,
    begins: &str,
    behind: &str,
) -> Result<bool, Fail> {
    let mut ends = Ends::new(alloc, line, &[script])?;
    let drawn = lockchart(alloc, &ends.words, &mut ends.source, &mut ends.sink);
    let text = ends.text();
    Ok(drawn.status == Done && text.starts_with(begins) && text.ends_with(behind))
}
