//! The command line.

ghost use Rattle.std.specs.Prelude.{◌≡◌, ◌≤◌, ◌⊎◌, IfSome, IfErr, IfOk, OnErr, OnOk, IsTrue, map};
ghost use Rattle.std.specs.Prelude.{[], string_bytes};
ghost use Rattle.gf_streams.specs.Counts.{Rises};
ghost use Rattle.gf_ops.specs.OperationOrder.{IsSite};
ghost use Rattle.gf_command.specs.Outputs.{Answers, AnswersPrefix, AnswersOpen, site_of};
ghost use Rattle.gf_command.specs.Outcomes.{AnswersSo};
ghost use Rattle.gf_command.specs.Asking.{AreMistaken, Asks, AsksHelp};
ghost use Rattle.gf_command.specs.declared.runs.Run.{Run};

use crate::painting::{Told, paint};
use crate::refusal::Refusal;
use crate::since::Since;
use crate::thin::Thin;
use crate::waiting::Waiting;
use crate::{Asked, Editor, Mistake, QueryFault, Run, parse};
use clap::Error;
use clap::error::ErrorKind;
use gf_check::{Verdict, check_run};
use gf_edit::{Made, edit_run};
use gf_gate::OpenGate;
use gf_import::import_run;
use gf_ops::ObjectId;
use gf_run::StudioError;
use gf_serve::serve_run;
use gf_session_run::session_run;
use gf_status::{State, status_run};
use gf_streams::{Sink, Source, WriteError, write_whole};
use gf_studio::{Format, NamedRun, fig_run, inspect_run, named_fig_run};
use gf_take_run::{TakeRequest, Taken, take_run};
use std::alloc::{AllocError, Global};
use std::io;
use std::sync::Wait;
use std::thread::Threads;

/// Runs what `words` ask for, the first of which is the program's name, and answers the status.
/// Status 0 is success, 1 a refusal or something to be seen to, 2 a mistake in the words.
///
/// Faults go to `faults`, as do the usage after a mistake, what an edit or a take made and the
/// chosen window. How many operations wait, where a drawing leaves them out, and which polygons
/// xfig does not keep are told there too. Help and version go to `output`. The words are read
/// before any input. A text for `faults` that can't be written changes no status.
pub fn command<T: Threads + Wait + Sync, R: Source, W: Sink, E: Sink>(
    rt: &T,
    alloc: Global,
    words: &[String],
    source: &mut R,
    output: &mut W,
    faults: &mut E,
) -> u8
    ensures status { result ≤ 2 }
    // Status 0: the run that the words ask for wrote all, or they ask for help, which reads no
    // input.
    ensures done { result ≡ 0 → (AsksHelp (map string_bytes words.now)
        × (source.new ≡ source.old)) ⊎ ((run : Run) × Asks (map string_bytes words.now) run ×
        IfSome (R.left source.old) (λ bytes.
        Answers run bytes (W.taken output.old) (W.taken output.new))) }
    ensures flushed { result ≡ 0 → IsTrue (W.flushed output.new) }
    // A refusal leaves the output as it was, or with a prefix of what the words ask for. What is to
    // be seen to is written.
    ensures refused { result ≡ 1 → (output.new ≡ output.old)
        ⊎ (AsksHelp (map string_bytes words.now) × (source.new ≡ source.old)
        × Rises (W.failures output.old) (W.failures output.new))
        ⊎ ((run : Run) × Asks (map string_bytes words.now) run × IfSome (R.left source.old)
        (λ bytes. AnswersPrefix run bytes (W.taken output.old) (W.taken output.new)
        ⊎ AnswersOpen run bytes (W.taken output.old) (W.taken output.new))) }
    // Status 2 comes only where the words ask for nothing.
    ensures mistaken { result ≡ 2 → AreMistaken (map string_bytes words.now) }
    ensures mistake { result ≡ 2 → (source.new ≡ source.old) × (output.new ≡ output.old) }
{
    match parse(alloc, words) {
        Ok(Some(Asked::Run(run))) => match answer(rt, alloc, run, source, output) {
            Ok(Outcome::Written) => 0,
            Ok(Outcome::Made(made)) => tell_made(alloc, made, faults),
            Ok(Outcome::Taken(taken)) => tell_taken(alloc, taken, faults),
            Ok(Outcome::Drawn(waiting)) => tell_waiting(alloc, waiting, faults),
            Ok(Outcome::Named(run)) => tell_named(alloc, run, faults),
            Ok(Outcome::Painted(told)) => tell_painted(alloc, told, faults),
            Ok(Outcome::Open) => 1,
            Err(error) => refuse(alloc, error, faults),
        },
        Ok(Some(Asked::Mistake(mistake))) => tell_mistake(mistake, faults),
        Ok(None) => refuse(alloc, Refusal::Options, faults),
        Err(error) if error.kind() == ErrorKind::OutOfMemory => {
            refuse(alloc, Refusal::Run(StudioError::OutOfMemory), faults)
        }
        Err(error) if error.use_stderr() => {
            let _ = print(alloc, &error, faults);
            2
        }
        Err(error) => match print(alloc, &error, output) {
            Ok(()) => 0,
            Err(fault) => refuse(alloc, Refusal::Run(StudioError::from(fault)), faults),
        },
    }
}

/// What a run that was not refused came to.
pub(crate) enum Outcome {
    /// All that the run asks for is written.
    Written,
    /// What is drawn is written, and so many operations wait.
    Drawn(usize),
    /// A text with names is written, of which this is told.
    Named(NamedRun),
    /// The picture is written, of which this is told.
    Painted(Told),
    /// An edit is written, which made these operations, or none.
    Made(Option<Made>),
    /// A take is written, of which this is told.
    Taken(Taken),
    /// What the run asks for is written, and has something that is to be seen to.
    Open,
}

/// Writes what a run asks for.
fn answer<T: Threads + Wait + Sync, R: Source, W: Sink>(
    rt: &T,
    alloc: Global,
    run: Run,
    source: &mut R,
    output: &mut W,
) -> Result<Outcome, Refusal>
    ensures done { IfOk result (λ outcome. IfSome (R.left source.old) (λ bytes.
        AnswersSo outcome run bytes (W.taken output.old) (W.taken output.new))) }
    ensures flushed { OnOk result (IsTrue (W.flushed output.new)) }
    ensures refused { IfErr result (λ _. (output.new ≡ output.old) ⊎
        IfSome (R.left source.old) (λ bytes.
        AnswersPrefix run bytes (W.taken output.old) (W.taken output.new))) }
{
    match run {
        Run::Fig(workers) => {
            let waiting = fig_run(rt, alloc, source, output, workers.count)?;
            return Ok(Outcome::Drawn(waiting));
        }
        Run::NamedFig(workers) => {
            let named = named_fig_run(rt, alloc, source, output, workers.count)?;
            return Ok(Outcome::Named(named));
        }
        Run::Paint(canvas) => {
            let told = paint(rt, alloc, source, output, Format::Lines, canvas)?;
            return Ok(Outcome::Painted(told));
        }
        Run::Repaint(canvas) => {
            let told = paint(rt, alloc, source, output, Format::Fig, canvas)?;
            return Ok(Outcome::Painted(told));
        }
        Run::Inspect {
            inspection,
            workers,
        } => inspect_run(rt, alloc, source, output, inspection, workers.count)?,
        Run::Import(editor) => import_run(alloc, source, output, editor.site)?,
        Run::Edit(editor) => {
            let made = edit_run(alloc, source, output, editor.site)?;
            return Ok(Outcome::Made(made));
        }
        Run::Take {
            editor,
            after,
            named,
            workers,
        } => {
            let request = TakeRequest {
                site: editor.site,
                after,
                named,
            };
            let taken = take_run(rt, alloc, source, output, request, workers.count)?;
            return Ok(Outcome::Taken(taken));
        }
        Run::Status {
            check,
            notation,
            workers,
        } => {
            let state = status_run(rt, alloc, source, output, notation, workers.count)?;
            match state {
                State::Open if check => return Ok(Outcome::Open),
                State::Open | State::Clean => {}
            }
        }
        Run::Check(editor) => match check_run(alloc, source, output, site_of(editor))? {
            Verdict::Faulty => return Ok(Outcome::Open),
            Verdict::Clean => {}
        },
        Run::Session(sites) => session_run(rt, alloc, source, output, sites, &OpenGate)?,
        Run::Serve(workers) => serve_run(rt, alloc, source, output, workers.count)?,
    }
    Ok(Outcome::Written)
}

/// The number of a site, where one is given.
fn site_of(editor: Option<Editor>) -> Option<u8>
    ensures site { result ≡ site_of editor }
    ensures in_range { IfSome result IsSite }
{
    match editor {
        Some(editor) => Some(editor.site),
        None => None,
    }
}

/// Tells why the words of the command line could not be read, and answers the status. The status is
/// 2 where a word is no UTF-8, and else 1.
pub fn refuse_words<E: Sink>(fault: &io::Error, faults: &mut E) -> u8
    ensures { (result ≡ 1) ⊎ (result ≡ 2) }
{
    if fault.kind() == io::ErrorKind::InvalidData {
        let _ = write_whole(faults, b"figgroup: a word is no UTF-8\n");
        2
    } else {
        let _ = write_whole(faults, b"figgroup: out of memory\n");
        1
    }
}

/// Tells what an edit made, and answers its status.
fn tell_made<E: Sink>(alloc: Global, made: Option<Made>, faults: &mut E) -> u8
    ensures { result ≡ 0 }
{
    let Some(made) = made else {
        let _ = write_whole(faults, b"figgroup: made nothing\n");
        return 0;
    };
    if let Ok(text) = format!(in alloc; "figgroup: {made}\n") {
        let _ = write_whole(faults, text.as_bytes());
    }
    0
}

/// Tells what a take made, behind what xfig does not keep, and what its site made since the drawing
/// was written. Answers the status.
fn tell_taken<E: Sink>(alloc: Global, taken: Taken, faults: &mut E) -> u8
    ensures { result ≡ 0 }
{
    tell_thin(alloc, &taken.thin, faults);
    let text = match taken.since {
        Some(made) => {
            let since = Since(made);
            format!(in alloc; "figgroup: {since}\nfiggroup: {taken}\n")
        }
        None => format!(in alloc; "figgroup: {taken}\n"),
    };
    if let Ok(text) = text {
        let _ = write_whole(faults, text.as_bytes());
    }
    0
}

/// Tells the window that was chosen, and behind it how many operations wait. Answers the status.
fn tell_painted<E: Sink>(alloc: Global, told: Told, faults: &mut E) -> u8
    ensures { result ≡ 0 }
{
    if let Some(chosen) = told.chosen {
        if let Ok(text) = format!(in alloc; "figgroup: painted {chosen}\n") {
            let _ = write_whole(faults, text.as_bytes());
        }
    }
    tell_waiting(alloc, told.waiting, faults)
}

/// Tells how many operations wait, where some do, and answers the status. Where no memory is left
/// for the number, it is left out.
fn tell_waiting<E: Sink>(alloc: Global, waiting: usize, faults: &mut E) -> u8
    ensures status { result ≡ 0 }
    ensures silent { waiting ≡ 0 → faults.new ≡ faults.old }
{
    if waiting == 0 {
        return 0;
    }
    let waiting = Waiting(waiting);
    let _ = match format!(in alloc; "figgroup: {waiting}\n") {
        Ok(text) => write_whole(faults, text.as_bytes()),
        Err(_) => write_whole(
            faults,
            b"figgroup: operations wait and are not drawn: figgroup status names them\n",
        ),
    };
    0
}

/// Tells how many operations wait, and which polygons xfig does not keep. Answers the status.
fn tell_named<E: Sink>(alloc: Global, run: NamedRun, faults: &mut E) -> u8
    ensures { result ≡ 0 }
{
    let status = tell_waiting(alloc, run.waiting, faults);
    tell_thin(alloc, &run.thin, faults);
    status
}

/// Tells which polygons xfig does not keep, where there are some. Where no memory is left for their
/// names, these are left out.
fn tell_thin<E: Sink>(alloc: Global, thin: &[ObjectId], faults: &mut E)
    ensures { thin.now ≡ [] → faults.new ≡ faults.old }
{
    if thin.is_empty() {
        return;
    }
    let thin = Thin(thin);
    let _ = match format!(in alloc; "{thin}") {
        Ok(text) => write_whole(faults, text.as_bytes()),
        Err(_) => write_whole(
            faults,
            b"figgroup: polygons have fewer than three different points, which xfig does not keep\n",
        ),
    };
}

/// Writes a refusal, and answers its status.
fn refuse<E: Sink>(alloc: Global, error: Refusal, faults: &mut E) -> u8
    ensures { result ≡ 1 }
{
    let _ = match refusal_text(alloc, error) {
        Ok(text) => write_whole(faults, text.as_bytes()),
        Err(_) => write_whole(faults, b"figgroup: out of memory\n"),
    };
    1
}

/// The text of a refusal, each line of which begins with the program's name.
fn refusal_text(alloc: Global, error: Refusal) -> Result<String, AllocError> {
    let lines = format!(in alloc; "{error}")?.replace(alloc, "\n", "\nfiggroup: ")?;
    format!(in alloc; "figgroup: {lines}\n")
}

/// Tells why the options ask for nothing, and answers the status.
fn tell_mistake<E: Sink>(mistake: Mistake, faults: &mut E) -> u8
    ensures { result ≡ 2 }
{
    let text: &[u8] = match mistake {
        Mistake::Query(QueryFault::NotOne) => b"figgroup: give --object or --at\n",
        Mistake::Query(QueryFault::Unreadable) => b"figgroup: bad object or point\n",
        Mistake::PlacedFit => b"figgroup: --fit goes without --x, --y and --step\n",
    };
    let _ = write_whole(faults, text);
    2
}

/// Writes what clap says, and flushes.
fn print<W: Sink>(alloc: Global, error: &Error, sink: &mut W) -> Result<(), WriteError>
    ensures flushed { OnOk result (IsTrue (W.flushed sink.new)) }
    ensures failed { OnErr result ((sink.new ≡ sink.old)
        ⊎ Rises (W.failures sink.old) (W.failures sink.new)) }
{
    let text = format!(in alloc; "{error}")?;
    write_whole(sink, text.as_bytes())?;
    Ok(())
}
