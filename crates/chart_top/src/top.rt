//! The top calls: the words of the command line and a source in, a picture and the end of the call out.
//!
//! Both promise the same, of all words that they take; `chart_command` says which are a form. Where the source and the
//! sink tell their bytes:
//! - `forms`: whether the words were a form, and how much of the source was read.
//! - `read_fault`, `write_fault`: at which status which end has failed.
//! - `writes`: what was written is a picture of the script that the source has, and nothing where there is none.
//! - `long`: where a picture was written that is long, and so told to be.
//! - `fault`: at which status the bytes are no script, and what is told of them.
//! - `complete`: where nothing fails, there is a picture or a fault, save for want of memory.
ghost use Rattle.std.specs.Prelude.{◌≡◌, ◌≢◌, ◌≤◌, map, false, IfSome, Some, []};
ghost use Rattle.std.specs.String.{string_bytes};
ghost use Rattle.chart_command.specs.Forms.{AsksPicture, Wanted, asking_of};
ghost use Rattle.chart_command.specs.Args.{HasRanges, wanted};
ghost use Rattle.chart_top.specs.Calls.{AnswersAll, Draws, TellsForms, TellsLong, WritesPicture};
ghost use Rattle.chart_top.specs.Pictures.{in_forms, TellsLength};
ghost use Rattle.lock_io.specs.Faults.{Rose};
ghost use Rattle.top_ends.specs.Calls.{ReadsBytes, TellsFaults, TellsScriptFault};
ghost use Rattle.top_ends.specs.Statuses.{writes_made};

use crate::drawing::draw;
use crate::renderer::{Forms, Renderer};
use chart_command::{Asked, LockchartArgs, WordsError, read_words};
use complaints::Status;
use lock_io::{Sink, Source};
use script_read::{ReadError, read_script};
use std::alloc::Global;
use top_ends::{Ended, read_bytes, write_text};

/// How a call ended.
#[derive(Drop, Debug)]
pub struct Drawn {
    pub status: Status,
    /// At `BadScript` the line that tells of the script's first fault, as `lockrun` prints it; else nothing.
    pub fault: Vec<u8>,
    /// Whether one picture was written of so many turns that a part of them or another form serves better.
    pub is_long: bool,
}

impl Drawn {
    // The end of a call, behind which the picture may be long that was written.
    pub(crate) fn of(ended: Ended, is_long: bool) -> Drawn
        ensures status { result.status ≡ ended.status }
        ensures fault { result.fault.items ≡ ended.fault.items }
        ensures done { ended.status ≡ Status.Done → result.is_long ≡ is_long }
        ensures short { ended.status ≢ Status.Done → result.is_long ≡ false }
    {
        let is_done = ended.status == Status::Done;
        Drawn {
            status: ended.status,
            fault: ended.fault,
            is_long: is_done && is_long,
        }
    }

    // The same, where the source was a script or wasn't read.
    pub(crate) fn with(alloc: Global, status: Status, is_long: bool) -> Drawn
        requires { status ≢ Status.BadScript }
        ensures status { result.status ≡ status }
        ensures fault { result.fault.items ≡ [] }
        ensures done { status ≡ Status.Done → result.is_long ≡ is_long }
        ensures short { status ≢ Status.Done → result.is_long ≡ false }
    {
        Drawn::of(Ended::with(alloc, status), is_long)
    }
}

/// What the program does: `lockchart_by` with the forms of a chart.
pub fn lockchart<S: Source, K: Sink>(
    alloc: Global,
    words: &[String],
    source: &mut S,
    sink: &mut K,
) -> Drawn
    ensures forms { TellsForms (map string_bytes words.now) result.status
        (S.remaining source.old) (S.remaining source.new) }
    ensures read_fault { TellsFaults result.status Status.ReadFault
        (S.faults source.old) (S.faults source.new) }
    ensures write_fault { TellsFaults result.status Status.WriteFault
        (K.faults sink.old) (K.faults sink.new) }
    ensures writes { WritesPicture in_forms (map string_bytes words.now) result.status
        (S.remaining source.old) (K.contents sink.old) (K.contents sink.new) }
    ensures long { TellsLong (map string_bytes words.now) result.status
        (S.remaining source.old) result.is_long }
    ensures fault { TellsScriptFault result.status result.fault.items (S.remaining source.old) }
    ensures complete { (wanted : Wanted)
        → asking_of (map string_bytes words.now) ≡ Some (AsksPicture wanted)
        → ¬ (Rose (S.faults source.old) (S.faults source.new))
        → ¬ (Rose (K.faults sink.old) (K.faults sink.new))
        → AnswersAll result.status (S.remaining source.old) }
{
    lockchart_by(&Forms, alloc, words, source, sink)
}

/// It reads a script from the source, makes its scheduled run, and writes what the renderer makes of that to the sink;
/// or the help, where the words ask for that. It always returns. It takes memory until the text is made, and none from
/// then on.
pub fn lockchart_by<R: Renderer, S: Source, K: Sink>(
    renderer: &R,
    alloc: Global,
    words: &[String],
    source: &mut S,
    sink: &mut K,
) -> Drawn
    ensures forms { TellsForms (map string_bytes words.now) result.status
        (S.remaining source.old) (S.remaining source.new) }
    ensures read_fault { TellsFaults result.status Status.ReadFault
        (S.faults source.old) (S.faults source.new) }
    ensures write_fault { TellsFaults result.status Status.WriteFault
        (K.faults sink.old) (K.faults sink.new) }
    ensures writes { WritesPicture R.renders (map string_bytes words.now) result.status
        (S.remaining source.old) (K.contents sink.old) (K.contents sink.new) }
    ensures long { TellsLong (map string_bytes words.now) result.status
        (S.remaining source.old) result.is_long }
    ensures fault { TellsScriptFault result.status result.fault.items (S.remaining source.old) }
    ensures complete { (wanted : Wanted)
        → asking_of (map string_bytes words.now) ≡ Some (AsksPicture wanted)
        → ¬ (Rose (S.faults source.old) (S.faults source.new))
        → ¬ (Rose (K.faults sink.old) (K.faults sink.new))
        → AnswersAll result.status (S.remaining source.old) }
{
    match read_words(alloc, words) {
        Ok(Asked::Picture(said)) => show(renderer, alloc, &said, source, sink),
        Ok(Asked::Help(text)) => {
            let status = write_text(sink, Status::Done, text.as_bytes());
            Drawn::of(Ended::with(alloc, status), false)
        }
        Err(WordsError::Usage) => Drawn::of(Ended::with(alloc, Status::Usage), false),
        Err(WordsError::Memory) => Drawn::of(Ended::with(alloc, Status::NoMemory), false),
    }
}

// Reads the source to its end, and writes the picture that the words ask for.
fn show<R: Renderer, S: Source, K: Sink>(
    renderer: &R,
    alloc: Global,
    said: &LockchartArgs<'_>,
    source: &mut S,
    sink: &mut K,
) -> Drawn
    requires ranges { HasRanges said.now }
    requires in_order { said.now.from ≤ said.now.to }
    ensures form { result.status ≢ Status.Usage }
    ensures reads { ReadsBytes result.status (S.remaining source.old) (S.remaining source.new) }
    ensures read_fault { TellsFaults result.status Status.ReadFault
        (S.faults source.old) (S.faults source.new) }
    ensures write_fault { TellsFaults result.status Status.WriteFault
        (K.faults sink.old) (K.faults sink.new) }
    ensures draws { Draws R.renders (wanted said.now) result.status
        (S.remaining source.old) (K.contents sink.old) (K.contents sink.new) }
    ensures nothing { writes_made result.status ≡ false → K.contents sink.new ≡ K.contents sink.old }
    ensures long { result.status ≡ Status.Done → IfSome (S.remaining source.old) (λ bytes.
        TellsLength (wanted said.now) bytes result.is_long) }
    ensures short { result.status ≢ Status.Done → result.is_long ≡ false }
    ensures fault { TellsScriptFault result.status result.fault.items (S.remaining source.old) }
    ensures complete { ¬ (Rose (S.faults source.old) (S.faults source.new))
        → ¬ (Rose (K.faults sink.old) (K.faults sink.new))
        → AnswersAll result.status (S.remaining source.old) }
{
    let bytes = match read_bytes(alloc, source) {
        Ok(bytes) => bytes,
        Err(status) => return Drawn::of(Ended::with(alloc, status), false),
    };
    let plan = match read_script(alloc, &bytes) {
        Ok(plan) => plan,
        Err(ReadError::Script(fault)) => return Drawn::of(Ended::by(alloc, fault), false),
        Err(ReadError::Memory(_)) => return Drawn::of(Ended::with(alloc, Status::NoMemory), false),
    };
    match draw(renderer, alloc, said, &bytes, &plan) {
        Ok(drawing) => {
            let status = write_text(sink, Status::Done, &drawing.text);
            Drawn::with(alloc, status, drawing.is_long)
        }
        Err(_) => Drawn::of(Ended::with(alloc, Status::NoMemory), false),
    }
}
