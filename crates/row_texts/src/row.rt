//! The kinds of rows.

use bus_semantics::Version;

/// A row of the table, as it is written. A folder has the files `description.json` and `script.txt`.
///
/// The cores of a node take their turns in any order. So if two of them may have something to do at once, `expect`, `change`, `script`,
/// `count` and `last` would show one order of many: `legal` and `times` show what each order has.
#[derive(Clone, Copy)]
pub enum Row<'a> {
    /// `words W W ..` carries out these words over the real files and standard output.
    Words(&'a str),
    /// `expect FOLDER` compares what is told with the folder's `expected.txt`.
    Expect(&'a str),
    /// `change FOLDER FROM => TO ;; ..` edits the folder's description.
    Change {
        folder: &'a str,
        edits: &'a str,
    },
    /// `plan FOLDER FROM => TO ;; ..` prints the plan of the folder's description, edited.
    Plan {
        folder: &'a str,
        edits: &'a str,
    },
    /// `script FOLDER TEXT` has this text for the script.
    Script {
        folder: &'a str,
        text: &'a str,
    },
    /// `count FOLDER TEXT` has this text for the script, and shows the first lines and the last of what is told.
    Count {
        folder: &'a str,
        text: &'a str,
    },
    /// `last FOLDER PIECE ;; TEXT` has this text for the script, and shows how many of the lines that are told have the piece, and
    /// what comes after it in the last of them.
    Last {
        folder: &'a str,
        piece: &'a str,
        text: &'a str,
    },
    /// `times FOLDER PIECE ;; TEXT` has this text for the script, and shows in how many of the lines that are told the piece stands.
    Times {
        folder: &'a str,
        piece: &'a str,
        text: &'a str,
    },
    /// `legal N ROW` runs the description and the script of this row N times, and at least once, and shows what `check` says of the traces.
    /// From the second run on the cores are held at random. The row is one of `expect`, `change` and `script`. If a run ends with another
    /// status than 0 or its trace is refused, that is shown, and no more runs are made.
    Legal {
        times: u32,
        row: &'a str,
    },
    /// `held N M ROW` runs the description of this row N times, and at least once, each time with its script M times over, and shows what `check`
    /// says of the traces. The cores are held at random. Each time that the script begins again, the node is as the time before left it.
    Held {
        runs: u32,
        times: u32,
        row: &'a str,
    },
    /// `passes FOLDER TEXT` has this text for the script, and shows how often the cores 0 and 1 passed a gate that counts and holds none, and
    /// the first lines and the last of what is told.
    Passes {
        folder: &'a str,
        text: &'a str,
    },
    /// `together FOLDER TEXT` has this text for the script. A gate holds each of the cores 0 and 1 until the other has begun its eighth pass,
    /// or until its looks are used up. The row shows how many holds used them up, how often the cores passed, and what is told.
    Together {
        folder: &'a str,
        text: &'a str,
    },
    /// `alone after` and `alone turns` have no node: one thread passes the gate of `together` for two cores, for one after the other or by
    /// turns, and the row shows how many holds used up their looks. In `alone beside` it passes the gate of `beside`, for feeders, pump and
    /// cores one after the other.
    Alone(&'a str),
    /// `stimuli FOLDER STIMULI` runs a node of the folder's description while stimuli of this text come.
    Stimuli {
        folder: &'a str,
        text: &'a str,
    },
    /// `live FOLDER PIECE ;; STIMULI` does the same, and shows in how many of the lines that are told the piece stands. Which lines of a feed or of a core
    /// come before those of another, differs from run to run.
    Live {
        folder: &'a str,
        piece: &'a str,
        text: &'a str,
    },
    /// `beside FOLDER` runs a node of two cores while each of two feeds brings 1,000 ticks. A gate holds cores, pump and feeders until the others have
    /// come so far that all of them had to go on at the same time. The row shows how many holds used up their looks, how often the feeders passed, and
    /// what stands before the stop.
    Beside(&'a str),
    /// `fails FOLDER FETCHES PUTS ROOM WORDS` carries out the words over the folder's two files in memory, and its `stimuli.txt` if they are of `live`. The fetches of these numbers fail,
    /// from 0 on, and so do the puts, each after so many bytes (`1:3,4:0`), and what is more than the room; `-` is none. The row shows
    /// what is told, with a bar behind its last byte.
    Fails {
        folder: &'a str,
        fetches: &'a str,
        puts: &'a str,
        room: u64,
        words: &'a str,
    },
    /// `check FOLDER TEXT` has this text for a trace, and shows what `check` says of it.
    Check {
        folder: &'a str,
        text: &'a str,
    },
    /// `text TEXT` has this text for the description, and an empty script.
    Text(&'a str),
    /// `lines FOLDER VERSION TEXT` shows what each line of the text is read as in a trace of the version, 1 or 2, over the plan of the
    /// folder's description.
    Lines {
        folder: &'a str,
        version: Version,
        text: &'a str,
    },
    /// `back FOLDER` reads each line of the trace that is the folder's `expected.txt`, and writes it back in both versions.
    Back(&'a str),
    /// `pair FOLDER WHICH FROM => TO ;; ..` runs two nodes: the descriptions of the folder, `description.json` and `second.json`, of which this one, 1 or 2, is
    /// edited, and its script.
    Pair {
        folder: &'a str,
        which: &'a str,
        edits: &'a str,
    },
    /// `both FOLDER TEXT` runs the folder's two nodes with this text for the script.
    Both {
        folder: &'a str,
        text: &'a str,
    },
    /// `wired FOLDER CUTS FAILS` runs the folder's two nodes and its script over a link that gives so many bytes at most (`1,7,64`), one after the other and
    /// then again from the first, and whose calls of these numbers fail, from 0 on; `-` is none. How the run ended stands behind what is told.
    Wired {
        folder: &'a str,
        cuts: &'a str,
        fails: &'a str,
    },
    /// `pipe ROOM CUTS FAILS CALLS` shows what such a link with this room answers to calls: a number receives at most so many bytes, and any other
    /// word is sent.
    Pipe {
        room: u32,
        cuts: &'a str,
        fails: &'a str,
        calls: &'a str,
    },
    /// `turned WORD` shows the frame of the word for a link of one word from -1 to 1,000, and of each of its bytes what the frame shows with each value in
    /// its place, wherever it is cut.
    Turned(i64),
    /// `seats FOLDER` shows what two seats of one round are answered over the plan of the folder's description, and what the close gives: the
    /// environment switches machine 0 to its mode 1, and then the machine makes its first phase.
    Seats(&'a str),
    /// `statuses` shows each status and the number with which the program ends then.
    Statuses,
    /// `turns FOLDER` shows the entries that eight turns of the first core make over the plan of the folder's description, and for each turn
    /// whether it made one, and how often the bench had answered `NotYet` by then.
    Turns(&'a str),
}

/// What comes before the first space, and what comes after it.
fn split_word(text: &str) -> (&str, &str) {
    text.split_once(' ').unwrap_or((text, ""))
}

/// The version of this number.
fn version_named(number: &str) -> Option<Version> {
    match number {
        "1" => Some(Version::One),
        "2" => Some(Version::Two),
        _ => None,
    }
}

fn last<'a>(folder: &'a str, rest: &'a str) -> Option<Row<'a>> {
    let (piece, text) = rest.split_once(" ;; ")?;
    Some(Row::Last {
        folder,
        piece,
        text,
    })
}

fn times<'a>(folder: &'a str, rest: &'a str) -> Option<Row<'a>> {
    let (piece, text) = rest.split_once(" ;; ")?;
    Some(Row::Times {
        folder,
        piece,
        text,
    })
}

fn live<'a>(folder: &'a str, rest: &'a str) -> Option<Row<'a>> {
    let (piece, text) = rest.split_once(" ;; ")?;
    Some(Row::Live {
        folder,
        piece,
        text,
    })
}

fn legal<'a>(times: &'a str, row: &'a str) -> Option<Row<'a>> {
    let times = times.parse().ok()?;
    Some(Row::Legal { times, row })
}

fn held<'a>(runs: &'a str, rest: &'a str) -> Option<Row<'a>> {
    let runs = runs.parse().ok()?;
    let (times, row) = split_word(rest);
    let times = times.parse().ok()?;
    Some(Row::Held { runs, times, row })
}

fn fails<'a>(folder: &'a str, rest: &'a str) -> Option<Row<'a>> {
    let (fetches, rest) = split_word(rest);
    let (puts, rest) = split_word(rest);
    let (room, words) = split_word(rest);
    let room = room.parse().ok()?;
    Some(Row::Fails {
        folder,
        fetches,
        puts,
        room,
        words,
    })
}

fn pair<'a>(folder: &'a str, rest: &'a str) -> Option<Row<'a>> {
    let (which, edits) = split_word(rest);
    Some(Row::Pair {
        folder,
        which,
        edits,
    })
}

fn wired<'a>(folder: &'a str, rest: &'a str) -> Option<Row<'a>> {
    let (cuts, fails) = split_word(rest);
    Some(Row::Wired {
        folder,
        cuts,
        fails,
    })
}

fn pipe<'a>(room: &'a str, rest: &'a str) -> Option<Row<'a>> {
    let room = room.parse().ok()?;
    let (cuts, rest) = split_word(rest);
    let (fails, calls) = split_word(rest);
    Some(Row::Pipe {
        room,
        cuts,
        fails,
        calls,
    })
}

fn turned<'a>(word: &'a str) -> Option<Row<'a>> {
    let word = word.parse().ok()?;
    Some(Row::Turned(word))
}

fn lines<'a>(folder: &'a str, rest: &'a str) -> Option<Row<'a>> {
    let (version, text) = split_word(rest);
    let version = version_named(version)?;
    Some(Row::Lines {
        folder,
        version,
        text,
    })
}

/// The row of this kind with a folder and a text behind it, if there is one.
fn row_in<'a>(kind: &str, folder: &'a str, text: &'a str) -> Option<Row<'a>> {
    match kind {
        "change" => Some(Row::Change {
            folder,
            edits: text,
        }),
        "plan" => Some(Row::Plan {
            folder,
            edits: text,
        }),
        "script" => Some(Row::Script { folder, text }),
        "count" => Some(Row::Count { folder, text }),
        "check" => Some(Row::Check { folder, text }),
        "passes" => Some(Row::Passes { folder, text }),
        "together" => Some(Row::Together { folder, text }),
        "last" => last(folder, text),
        "times" => times(folder, text),
        "fails" => fails(folder, text),
        "lines" => lines(folder, text),
        "pair" => pair(folder, text),
        "both" => Some(Row::Both { folder, text }),
        "stimuli" => Some(Row::Stimuli { folder, text }),
        "live" => live(folder, text),
        "wired" => wired(folder, text),
        "pipe" => pipe(folder, text),
        _ => None,
    }
}

impl<'a> Row<'a> {
    /// The row of this line, if it begins with the word of one.
    pub fn read(line: &'a str) -> Option<Row<'a>> {
        let (kind, rest) = split_word(line);
        let (first, more) = split_word(rest);
        match kind {
            "words" => Some(Row::Words(rest)),
            "expect" => Some(Row::Expect(rest)),
            "alone" => Some(Row::Alone(rest)),
            "beside" => Some(Row::Beside(rest)),
            "text" => Some(Row::Text(rest)),
            "back" => Some(Row::Back(rest)),
            "seats" => Some(Row::Seats(rest)),
            "statuses" => Some(Row::Statuses),
            "turns" => Some(Row::Turns(rest)),
            "turned" => turned(rest),
            "legal" => legal(first, more),
            "held" => held(first, more),
            _ => row_in(kind, first, more),
        }
    }
}
