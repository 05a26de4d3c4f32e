//! The n-th call of one object fails, for n from 1 until a run in which none fails.

use crate::objects::{files_of, words_of};
use mt_fault::FileBytes;
use mt_run::run;
use mt_shelf::{MemShelf, MemSink, MemSource, NoGate};
use mt_types::List;
use std::alloc::Global;
use std::test::Fail;
use std::thread::Threads;

/// The files that lie there: a table, and a part of one row of another.
const FILES: &[(&str, &str)] = &[
    (
        "t.sql",
        "CREATE TABLE t (k UInt64, v UInt64) ENGINE = MergeTree ORDER BY k \
        SETTINGS index_granularity = 2, min_bytes_for_wide_part = 0",
    ),
    (
        "u.sql",
        "CREATE TABLE t (k UInt8) ENGINE = MergeTree ORDER BY k SETTINGS min_bytes_for_wide_part = 0",
    ),
    (
        "q/columns.txt",
        "columns format version: 1\n1 columns:\n`k` UInt8\n",
    ),
    ("q/count.txt", "1"),
    (
        "q/k.bin",
        "\0\0\0\0\0\0\0\0\0\0\0\0\0\0\0\0\x02\x0a\0\0\0\x01\0\0\0\x07",
    ),
    (
        "q/k.mrk2",
        "\0\0\0\0\0\0\0\0\0\0\0\0\0\0\0\0\x01\0\0\0\0\0\0\0\x1a\0\0\0\0\0\0\0\0\0\0\0\0\0\0\0\0\0\0\0\0\0\0\0",
    ),
    ("q/primary.idx", "\x07\x07"),
];

/// An object of a run.
#[derive(Clone, Copy, PartialEq)]
enum Object {
    Input,
    Output,
    Notes,
    Shelf,
}

/// The words of a call, the object that fails, and how many calls of it there are; and what comes where none fails.
struct Case {
    words: &'static [&'static str],
    object: Object,
    calls: u64,
    /// The status, and what is printed.
    done: u8,
    printed: &'static str,
    /// How many files are gained, and how many bytes of the shelf's are read.
    gained: usize,
    taken: u64,
}

const WRITE: &[&str] = &["write", "t.sql", "p", "1"];

const CHECK: &[&str] = &["check", "u.sql", "q", "1"];

const ROWS: &[&str] = &["rows", "u.sql", "q"];

const SHOW: &[&str] = &["show", "u.sql", "q"];

const SELECT: &[&str] = &[
    "select",
    "u.sql",
    "q",
    "SELECT k, count() FROM q GROUP BY k ORDER BY ALL",
];

const MERGE: &[&str] = &["merge", "u.sql", "1", "m", "q", "q"];

const ACCEPTED: &str = "accepted 1 rows in 1 granules\n";

const SHAPE: &str = "kind Wide\nrows 1\ngranules 1\ncolumn k UInt8\ngranule 0 1\t7\nlast\t7\n";

const TRIED: &str = "rows 4\n4\t798\t0\t399\n0\t1\t0\n26\t1\t42\n";

/// The bytes of the part's files together.
const PART: u64 = 47 + 1 + 26 + 48 + 2;

/// The bytes of the part and of its table: each file is read once.
const TAKEN: u64 = 91 + PART;

/// The bytes of the table of the rows that are written.
const TABLE: u64 = 125;

const CASES: &[Case] = &[
    // Four bytes a call, and a call at the end.
    Case {
        words: WRITE,
        object: Object::Input,
        calls: 5,
        done: 0,
        printed: "",
        gained: 7,
        taken: TABLE,
    },
    // The table's size and text, the target, the draft, seven files, and its end.
    Case {
        words: WRITE,
        object: Object::Shelf,
        calls: 12,
        done: 0,
        printed: "",
        gained: 7,
        taken: TABLE,
    },
    // The table's size and text, the listing, and the five files.
    Case {
        words: CHECK,
        object: Object::Shelf,
        calls: 8,
        done: 0,
        printed: ACCEPTED,
        gained: 0,
        taken: TAKEN,
    },
    // The same.
    Case {
        words: ROWS,
        object: Object::Shelf,
        calls: 8,
        done: 0,
        printed: "7\n",
        gained: 0,
        taken: TAKEN,
    },
    // The same.
    Case {
        words: SHOW,
        object: Object::Shelf,
        calls: 8,
        done: 0,
        printed: SHAPE,
        gained: 0,
        taken: TAKEN,
    },
    // The same.
    Case {
        words: SELECT,
        object: Object::Shelf,
        calls: 8,
        done: 0,
        printed: "7\t1\n",
        gained: 0,
        taken: TAKEN,
    },
    // The table's size and text, two listings, the target, twice a listing and five files, the draft, five files, and its end.
    Case {
        words: MERGE,
        object: Object::Shelf,
        calls: 24,
        done: 0,
        printed: "",
        gained: 5,
        taken: TAKEN + PART,
    },
    // A byte a call, as in the cases below.
    Case {
        words: CHECK,
        object: Object::Output,
        calls: 30,
        done: 0,
        printed: ACCEPTED,
        gained: 0,
        taken: TAKEN,
    },
    // Two bytes.
    Case {
        words: ROWS,
        object: Object::Output,
        calls: 2,
        done: 0,
        printed: "7\n",
        gained: 0,
        taken: TAKEN,
    },
    // Six lines.
    Case {
        words: SHOW,
        object: Object::Output,
        calls: 64,
        done: 0,
        printed: SHAPE,
        gained: 0,
        taken: TAKEN,
    },
    // Four bytes.
    Case {
        words: SELECT,
        object: Object::Output,
        calls: 4,
        done: 0,
        printed: "7\t1\n",
        gained: 0,
        taken: TAKEN,
    },
    // Four lines.
    Case {
        words: &["trial", "0", "4", "1"],
        object: Object::Output,
        calls: 33,
        done: 0,
        printed: TRIED,
        gained: 0,
        taken: 0,
    },
    // Seventeen bytes: notes that fail change no status.
    Case {
        words: &["rows", "none.sql", "q"],
        object: Object::Notes,
        calls: 17,
        done: 2,
        printed: "",
        gained: 0,
        taken: 0,
    },
];

/// The status and the note of a run in which a call of the object fails; notes that fail are a part of those of the run.
fn failure_of(object: Object) -> (u8, &'static str) {
    match object {
        Object::Input => (3, "mtpart: input failed\n"),
        Object::Output => (3, "mtpart: output failed\n"),
        Object::Shelf => (3, "mtpart: shelf failed\n"),
        Object::Notes => (2, "mtpart: no table\n"),
    }
}

/// What a run leaves.
#[derive(Drop)]
struct Left {
    code: u8,
    printed: List<u8>,
    noted: List<u8>,
    /// Whether the files that lay there beforehand do so as they were, and how many others do.
    kept: bool,
    gained: usize,
    /// How many bytes were read of the shelf.
    taken: u64,
}

/// Whether files that lay there beforehand do so as they were, at the front of those that are held.
fn are_kept(held: &[FileBytes]) -> bool {
    held.len() >= FILES.len()
        && held.iter().zip(FILES).all(|(file, (path, text))| {
            file.name.as_slice() == path.as_bytes() && file.bytes.as_slice() == text.as_bytes()
        })
}

/// The number of a call that fails, if it is one of this object.
fn failing(alloc: Global, case: &Case, object: Object, call: u64) -> Result<List<u64>, Fail> {
    let mut numbers = List::new(alloc);
    if case.object == object {
        numbers.push(call)?;
    }
    Ok(numbers)
}

/// What a run leaves in which this call of the case's object fails.
fn outcome<R: Threads + Sync>(rt: &R, alloc: Global, case: &Case, call: u64) -> Result<Left, Fail> {
    let words = words_of(alloc, case.words)?;
    let text = List::of_bytes(alloc, b"3\t30\n1\t10\n2\t20\n")?;
    let mut input = MemSource::new(text, failing(alloc, case, Object::Input, call)?, 4);
    let mut output = MemSink::new(alloc, failing(alloc, case, Object::Output, call)?, 1);
    let mut notes = MemSink::new(alloc, failing(alloc, case, Object::Notes, call)?, 1);
    let files = files_of(alloc, FILES)?;
    let calls = failing(alloc, case, Object::Shelf, call)?;
    let mut shelf = MemShelf::new(alloc, files, calls, 65536);
    let status = run(
        rt,
        alloc,
        words.as_slice(),
        &mut input,
        &mut output,
        &mut notes,
        &mut shelf,
        &NoGate,
    );
    Ok(Left {
        code: status.code(),
        printed: List::of_bytes(alloc, output.shown())?,
        noted: List::of_bytes(alloc, notes.shown())?,
        kept: are_kept(shelf.held()),
        gained: shelf.held().len().saturating_sub(FILES.len()),
        taken: shelf.bytes_taken(),
    })
}

/// Whether a run was cut off by a failed call: what is printed and noted is a part of the whole, and the files are as before.
fn is_cut(case: &Case, left: &Left, call: u64) -> bool {
    let (code, note) = failure_of(case.object);
    let before = call.saturating_sub(1) as usize;
    let (printed, noted) = match case.object {
        Object::Output => (before, note.len()),
        Object::Notes => (0, before),
        _ => (0, note.len()),
    };
    left.code == code
        && is_front(left.printed.as_slice(), case.printed, printed)
        && is_front(left.noted.as_slice(), note, noted)
        && left.kept
        && left.gained == 0
}

/// Whether the bytes are so many of a text, from its front.
fn is_front(bytes: &[u8], text: &str, count: usize) -> bool {
    bytes.len() == count && text.as_bytes().starts_with(bytes)
}

#[test]
fn each_call_fails_in_turn(rt: HostRuntime) -> Result<(), Fail> {
    for case in CASES {
        for call in 1..=case.calls {
            let left = outcome(&rt, rt.alloc(), case, call)?;
            assert!(rt; is_cut(case, &left, call), "{}, call {call}", case.printed);
        }
        let left = outcome(&rt, rt.alloc(), case, case.calls.saturating_add(1))?;
        assert_eq!(rt; left.code, case.done);
        assert_eq!(rt; left.printed.as_slice(), case.printed.as_bytes());
        assert!(rt; left.kept);
        assert_eq!(rt; left.gained, case.gained);
        assert_eq!(rt; left.taken, case.taken);
    }
    Ok(())
}
