//! Carrying out a row.

ghost use Rattle.std.specs.Prelude.{◌≤◌, IfOk, length};

use crate::beside::{pass_beside_alone, run_beside};
use crate::pairs::{PairCase, run_pair_case, run_wired};
use crate::runs::{
    Answer, Case, DESCRIPTION, Failing, Named, SCRIPT, SECOND, STIMULI, add_case, add_file, check,
    pass_alone, plan, run, run_and_check_often, run_and_check_repeated, run_counted, run_together,
    serve_through, tell_failing, words_of,
};
use bus_semantics::Version;
use row_texts::{
    Fault, HashSign, Row, Shown, calls_shown, cuts_of, edited, expanded, numbers_of, pairs_of,
    pipe_of, read_back, read_lines, seats_told, turns_shown, turns_told,
};
use rte_program::{Status, rte_top};
use rte_text::{Fetched, FileShelf, OpenGate, Shelf, StdSink};
use std::alloc::{AllocError, Global};
use std::rt::Files;
use std::sync::Wait;
use std::thread::Threads;

const EXPECTED: &str = "expected.txt";

/// A folder's stimuli, which a node is given under the name `STIMULI`.
const STIMULI_FILE: &str = "stimuli.txt";

/// All statuses, each with what it is called in a row.
const STATUSES: [(&str, Status); 12] = [
    ("done", Status::Done),
    ("refused", Status::Refused),
    ("words", Status::Words),
    ("not read", Status::NotRead),
    ("not written", Status::NotWritten),
    ("script", Status::Script),
    ("trace", Status::Trace),
    ("memory", Status::Memory),
    ("no component", Status::NoComponent),
    ("clash", Status::Clash),
    ("no link", Status::NoLink),
    ("too many cores", Status::TooManyCores),
];

/// The bytes of a folder's file.
fn file<R: Files + AllocGlobal + Clone + Drop>(
    rt: &R,
    folder: &str,
    name: &str,
) -> Result<Vec<u8>, Fault>
    ensures { IfOk result (λ bytes. length bytes.items ≤ 8388608) }
{
    let path = format!(in rt.alloc(); "{folder}/{name}")?;
    match FileShelf::new(rt.clone()?).fetch(rt.alloc(), path.as_str()) {
        Fetched::Bytes(bytes) => Ok(bytes),
        Fetched::Failed | Fetched::TooLong => Err(Fault::NoFile(path)),
        Fetched::Memory => Err(Fault::Memory(AllocError)),
    }
}

/// Carries out the words over the real files and standard output.
fn status_of<R: Files + Print + AllocGlobal + Clone + Drop + Threads + Wait + Sync>(
    rt: &R,
    words: &[String],
) -> Result<Status, AllocError> {
    let mut shelf = FileShelf::new(rt.clone()?);
    let mut out = StdSink::new(rt.clone()?);
    Ok(rte_top(rt, rt.alloc(), words, &mut shelf, &mut out, &OpenGate))
}

/// Carries out the words over the real files and standard output, to which all goes that is told.
fn run_words<R: Files + Print + AllocGlobal + Clone + Drop + Threads + Wait + Sync>(
    rt: &R,
    words: &str,
) -> Result<Answer, Fault> {
    let words = words_of(rt.alloc(), words)?;
    let status = status_of(rt, words.as_slice());
    drop(words);
    let status = status?;
    let text = Vec::new(rt.alloc());
    Ok(Answer { text, status })
}

/// The folder's description and script.
fn own<R: Files + AllocGlobal + Clone + Drop>(rt: &R, folder: &str) -> Result<Case, Fault> {
    let description = file(rt, folder, DESCRIPTION)?;
    let script = file(rt, folder, SCRIPT)?;
    Ok(Case {
        description,
        script,
    })
}

/// The folder's description, edited, and its script.
fn changed<R: Files + AllocGlobal + Clone + Drop>(
    rt: &R,
    folder: &str,
    edits: &str,
) -> Result<Case, Fault> {
    let case = own(rt, folder)?;
    let description = edited(rt.alloc(), case.description, edits)?;
    Ok(Case {
        description,
        script: case.script,
    })
}

/// The folder's description, and a script of this text.
fn scripted<R: Files + AllocGlobal + Clone + Drop>(
    rt: &R,
    folder: &str,
    text: &str,
) -> Result<Case, Fault> {
    let description = file(rt, folder, DESCRIPTION)?;
    let script = expanded(rt.alloc(), text, HashSign::Number)?;
    Ok(Case {
        description,
        script,
    })
}

/// The description and the script that a row runs.
fn case_of<R: Files + AllocGlobal + Clone + Drop>(rt: &R, row: &str) -> Result<Case, Fault> {
    match Row::read(row) {
        Some(Row::Expect(folder)) => own(rt, folder),
        Some(Row::Change { folder, edits }) => changed(rt, folder, edits),
        Some(Row::Script { folder, text }) => scripted(rt, folder, text),
        _ => Err(Fault::NoRow),
    }
}

/// Runs the case, and shows this of what is told.
fn run_and_show<R: AllocGlobal + Threads + Wait + Sync>(
    rt: &R,
    case: Case,
    shown: &Shown,
) -> Result<Answer, Fault> {
    let told = run(rt, &case);
    drop(case);
    match told {
        Ok(answer) => answer.shown(rt.alloc(), shown),
        Err(fault) => Err(fault),
    }
}

/// Compares what is told of the folder's case with its `expected.txt`.
fn expect<R: Files + AllocGlobal + Clone + Drop + Threads + Wait + Sync>(
    rt: &R,
    folder: &str,
) -> Result<Answer, Fault> {
    let expected = file(rt, folder, EXPECTED)?;
    let case = own(rt, folder)?;
    run_and_show(rt, case, &Shown::Against(expected.as_slice()))
}

fn change<R: Files + AllocGlobal + Clone + Drop + Threads + Wait + Sync>(
    rt: &R,
    folder: &str,
    edits: &str,
) -> Result<Answer, Fault> {
    let case = changed(rt, folder, edits)?;
    run(rt, &case)
}

fn edited_plan<R: Files + AllocGlobal + Clone + Drop + Threads + Wait + Sync>(
    rt: &R,
    folder: &str,
    edits: &str,
) -> Result<Answer, Fault> {
    let description = edited(rt.alloc(), file(rt, folder, DESCRIPTION)?, edits)?;
    plan(rt, description.as_slice())
}

fn script<R: Files + AllocGlobal + Clone + Drop + Threads + Wait + Sync>(
    rt: &R,
    folder: &str,
    text: &str,
    shown: &Shown,
) -> Result<Answer, Fault> {
    let case = scripted(rt, folder, text)?;
    run_and_show(rt, case, shown)
}

fn legal<R: Files + AllocGlobal + Clone + Drop + Threads + Wait + Sync>(
    rt: &R,
    times: u32,
    row: &str,
) -> Result<Answer, Fault> {
    let case = case_of(rt, row)?;
    run_and_check_often(rt, &case, times)
}

fn held<R: Files + AllocGlobal + Clone + Drop + Threads + Wait + Sync>(
    rt: &R,
    runs: u32,
    times: u32,
    row: &str,
) -> Result<Answer, Fault> {
    let case = case_of(rt, row)?;
    run_and_check_repeated(rt, case, runs, times)
}

fn passes<R: Files + AllocGlobal + Clone + Drop + Threads + Wait + Sync>(
    rt: &R,
    folder: &str,
    text: &str,
) -> Result<Answer, Fault> {
    let case = scripted(rt, folder, text)?;
    run_counted(rt, &case)
}

fn together<R: Files + AllocGlobal + Clone + Drop + Threads + Wait + Sync>(
    rt: &R,
    folder: &str,
    text: &str,
) -> Result<Answer, Fault> {
    let case = scripted(rt, folder, text)?;
    run_together(rt, &case)
}

fn alone<R: AllocGlobal>(rt: &R, order: &str) -> Result<Answer, Fault> {
    match order {
        "after" => pass_alone(rt.alloc(), false),
        "turns" => pass_alone(rt.alloc(), true),
        "beside" => pass_beside_alone(rt.alloc()),
        _ => Err(Fault::NoRow),
    }
}

/// Runs a node of the folder's description while stimuli of this text come, and shows this of what is told.
fn live<R: Files + AllocGlobal + Clone + Drop + Threads + Wait + Sync>(
    rt: &R,
    folder: &str,
    text: &str,
    shown: &Shown,
) -> Result<Answer, Fault> {
    let case = scripted(rt, folder, text)?;
    let told = serve_through(
        rt,
        case.description.as_slice(),
        case.script.as_slice(),
        &OpenGate,
    )?;
    told.shown(rt.alloc(), shown)
}

fn beside<R: Files + AllocGlobal + Clone + Drop + Threads + Wait + Sync>(
    rt: &R,
    folder: &str,
) -> Result<Answer, Fault> {
    let description = file(rt, folder, DESCRIPTION)?;
    run_beside(rt, description.as_slice())
}

/// What fails of a row's lists of numbers.
fn failing<R: AllocGlobal>(rt: &R, fetches: &str, puts: &str, room: u64) -> Result<Failing, Fault> {
    let fetches = numbers_of(rt.alloc(), fetches)?;
    let puts = pairs_of(rt.alloc(), puts)?;
    Ok(Failing {
        fetches,
        puts,
        room,
    })
}

/// The folder's files for these words: those of one node, for `pair` that of the second, and for `live` the stimuli.
fn files_for<R: Files + AllocGlobal + Clone + Drop>(
    rt: &R,
    folder: &str,
    words: &str,
) -> Result<Vec<Named>, Fault> {
    let case = own(rt, folder)?;
    let mut files = Vec::new(rt.alloc());
    add_case(rt.alloc(), &mut files, &case)?;
    if words.starts_with("pair ") {
        let second = file(rt, folder, SECOND)?;
        add_file(rt.alloc(), &mut files, SECOND, second.as_slice())?;
    }
    if words.starts_with("live ") {
        let stimuli = file(rt, folder, STIMULI_FILE)?;
        add_file(rt.alloc(), &mut files, STIMULI, stimuli.as_slice())?;
    }
    Ok(files)
}

fn fail<R: Files + AllocGlobal + Clone + Drop + Threads + Wait + Sync>(
    rt: &R,
    folder: &str,
    fetches: &str,
    puts: &str,
    room: u64,
    words: &str,
) -> Result<Answer, Fault> {
    let files = files_for(rt, folder, words)?;
    match failing(rt, fetches, puts, room) {
        Ok(failing) => tell_failing(rt, words, files, failing),
        Err(fault) => Err(fault),
    }
}

/// Checks a trace of these bytes against the folder's description and script.
fn check_bytes<R: Files + AllocGlobal + Clone + Drop + Threads + Wait + Sync>(
    rt: &R,
    folder: &str,
    trace: &[u8],
) -> Result<Answer, Fault> {
    let case = own(rt, folder)?;
    check(rt, &case, trace)
}

/// Checks a trace of this text against the folder's description and script.
fn check_text<R: Files + AllocGlobal + Clone + Drop + Threads + Wait + Sync>(
    rt: &R,
    folder: &str,
    text: &str,
) -> Result<Answer, Fault> {
    let trace = expanded(rt.alloc(), text, HashSign::Number)?;
    check_bytes(rt, folder, trace.as_slice())
}

/// Runs an empty script on the description of this text.
fn run_text<R: AllocGlobal + Threads + Wait + Sync>(rt: &R, text: &str) -> Result<Answer, Fault> {
    let description = expanded(rt.alloc(), text, HashSign::Number)?;
    let script = Vec::new(rt.alloc());
    let case = Case {
        description,
        script,
    };
    run(rt, &case)
}

/// The folder's two descriptions and its script.
fn own_pair<R: Files + AllocGlobal + Clone + Drop>(
    rt: &R,
    folder: &str,
) -> Result<PairCase, Fault> {
    let one = file(rt, folder, DESCRIPTION)?;
    let two = file(rt, folder, SECOND)?;
    let script = file(rt, folder, SCRIPT)?;
    Ok(PairCase { one, two, script })
}

/// Runs the folder's two nodes, of which this one is edited.
fn pair<R: Files + AllocGlobal + Clone + Drop + Threads + Wait + Sync>(
    rt: &R,
    folder: &str,
    which: &str,
    edits: &str,
) -> Result<Answer, Fault> {
    let PairCase { one, two, script } = own_pair(rt, folder)?;
    let case = match which {
        "1" => PairCase {
            one: edited(rt.alloc(), one, edits)?,
            two,
            script,
        },
        "2" => PairCase {
            one,
            two: edited(rt.alloc(), two, edits)?,
            script,
        },
        _ => return Err(Fault::NoRow),
    };
    run_pair_case(rt, &case)
}

/// Runs the folder's two nodes with a script of this text.
fn both<R: Files + AllocGlobal + Clone + Drop + Threads + Wait + Sync>(
    rt: &R,
    folder: &str,
    text: &str,
) -> Result<Answer, Fault> {
    let case = own_pair(rt, folder)?;
    let script = expanded(rt.alloc(), text, HashSign::Number)?;
    run_pair_case(rt, &PairCase { script, ..case })
}

/// Runs the folder's two nodes and its script over a link with these cuts and failing calls.
fn wired<R: Files + AllocGlobal + Clone + Drop + Threads + Wait + Sync>(
    rt: &R,
    folder: &str,
    cuts: &str,
    fails: &str,
) -> Result<Answer, Fault> {
    let one = file(rt, folder, DESCRIPTION)?;
    let two = file(rt, folder, SECOND)?;
    let script = file(rt, folder, SCRIPT)?;
    let cuts = cuts_of(rt.alloc(), cuts)?;
    let fails = numbers_of(rt.alloc(), fails)?;
    run_wired(
        rt,
        one.as_slice(),
        two.as_slice(),
        script.as_slice(),
        cuts,
        fails,
    )
}

/// Shows what a pipe answers to calls.
fn show_pipe(
    alloc: Global,
    room: u32,
    cuts: &str,
    fails: &str,
    calls: &str,
) -> Result<Answer, Fault> {
    let cuts = cuts_of(alloc, cuts)?;
    let fails = numbers_of(alloc, fails)?;
    let text = calls_shown(alloc, pipe_of(alloc, room, cuts, fails)?, calls)?;
    let status = Status::Done;
    Ok(Answer { text, status })
}

/// Shows what frames of one word show that are turned and cut.
fn show_turned(alloc: Global, word: i64) -> Result<Answer, Fault> {
    let text = turns_shown(alloc, word)?;
    let status = Status::Done;
    Ok(Answer { text, status })
}

/// Shows what the lines of the text are read as over the plan of the folder's description.
fn show_lines<R: Files + AllocGlobal + Clone + Drop>(
    rt: &R,
    folder: &str,
    version: Version,
    text: &str,
) -> Result<Answer, Fault> {
    let description = file(rt, folder, DESCRIPTION)?;
    let text = read_lines(rt.alloc(), description.as_slice(), version, text)?;
    let status = Status::Done;
    Ok(Answer { text, status })
}

/// Shows whether the lines of the folder's trace come back as they are.
fn show_back<R: Files + AllocGlobal + Clone + Drop>(rt: &R, folder: &str) -> Result<Answer, Fault> {
    let description = file(rt, folder, DESCRIPTION)?;
    let trace = file(rt, folder, EXPECTED)?;
    let text = read_back(rt.alloc(), description.as_slice(), trace.as_slice())?;
    let status = Status::Done;
    Ok(Answer { text, status })
}

/// Shows what two seats of one round are answered over the plan of the folder's description.
fn show_seats<R: Files + AllocGlobal + Clone + Drop>(
    rt: &R,
    folder: &str,
) -> Result<Answer, Fault> {
    let description = file(rt, folder, DESCRIPTION)?;
    let text = seats_told(rt.alloc(), description.as_slice())?;
    let status = Status::Done;
    Ok(Answer { text, status })
}

/// Shows each status and its number, a line each.
fn show_statuses(alloc: Global) -> Result<Answer, Fault> {
    let mut text = Vec::new(alloc);
    for (name, status) in STATUSES {
        let line = format!(in alloc; "{name} {}\n", status as u8)?;
        text.extend_from_slice(line.as_bytes())?;
    }
    let status = Status::Done;
    Ok(Answer { text, status })
}

/// Shows what turns of the first core tell over the plan of the folder's description.
fn show_turns<R: Files + AllocGlobal + Clone + Drop>(
    rt: &R,
    folder: &str,
) -> Result<Answer, Fault> {
    let description = file(rt, folder, DESCRIPTION)?;
    let text = turns_told(rt.alloc(), description.as_slice())?;
    let status = Status::Done;
    Ok(Answer { text, status })
}

/// Carries out the row.
pub fn carry_out<R: Files + Print + AllocGlobal + Clone + Drop + Threads + Wait + Sync>(
    rt: &R,
    row: Row,
) -> Result<Answer, Fault> {
    match row {
        Row::Words(words) => run_words(rt, words),
        Row::Expect(folder) => expect(rt, folder),
        Row::Change { folder, edits } => change(rt, folder, edits),
        Row::Plan { folder, edits } => edited_plan(rt, folder, edits),
        Row::Script { folder, text } => script(rt, folder, text, &Shown::All),
        Row::Count { folder, text } => script(rt, folder, text, &Shown::Ends),
        Row::Last {
            folder,
            piece,
            text,
        } => script(rt, folder, text, &Shown::LastWith(piece.as_bytes())),
        Row::Times {
            folder,
            piece,
            text,
        } => script(rt, folder, text, &Shown::TimesWith(piece.as_bytes())),
        Row::Legal { times, row } => legal(rt, times, row),
        Row::Held { runs, times, row } => held(rt, runs, times, row),
        Row::Passes { folder, text } => passes(rt, folder, text),
        Row::Together { folder, text } => together(rt, folder, text),
        Row::Alone(order) => alone(rt, order),
        Row::Stimuli { folder, text } => live(rt, folder, text, &Shown::All),
        Row::Live {
            folder,
            piece,
            text,
        } => live(rt, folder, text, &Shown::TimesWith(piece.as_bytes())),
        Row::Beside(folder) => beside(rt, folder),
        Row::Fails {
            folder,
            fetches,
            puts,
            room,
            words,
        } => fail(rt, folder, fetches, puts, room, words),
        Row::Check { folder, text } => check_text(rt, folder, text),
        Row::Text(text) => run_text(rt, text),
        Row::Lines {
            folder,
            version,
            text,
        } => show_lines(rt, folder, version, text),
        Row::Back(folder) => show_back(rt, folder),
        Row::Seats(folder) => show_seats(rt, folder),
        Row::Turns(folder) => show_turns(rt, folder),
        Row::Statuses => show_statuses(rt.alloc()),
        Row::Pair {
            folder,
            which,
            edits,
        } => pair(rt, folder, which, edits),
        Row::Both { folder, text } => both(rt, folder, text),
        Row::Wired {
            folder,
            cuts,
            fails,
        } => wired(rt, folder, cuts, fails),
        Row::Pipe {
            room,
            cuts,
            fails,
            calls,
        } => show_pipe(rt.alloc(), room, cuts, fails, calls),
        Row::Turned(word) => show_turned(rt.alloc(), word),
    }
}
