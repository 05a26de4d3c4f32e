//! The shelf becomes another at each of its calls.

use crate::objects::{files_of, words_of};
use mt_run::run;
use mt_shelf::{NoGate, SureShelf, SureSink, SureSource};
use mt_swap::SwapShelf;
use mt_types::List;
use std::alloc::Global;
use std::test::Fail;
use std::thread::Threads;

/// A table, and the rows of its part before and after the turn.
const TABLE: &str = "CREATE TABLE t (k UInt64, s String) ENGINE = MergeTree ORDER BY k \
    SETTINGS index_granularity = 2, min_bytes_for_wide_part = 0";

const BEFORE: &str = "1\ta\n2\tb\n3\tc\n";

const AFTER: &str = "4\tdd\n5\te\n6\tf\n7\tg\n8\th\n";

/// More calls than any command below makes.
const LAST: u64 = 40;

/// The words of a call, and what it prints where the turn comes after it, and before it.
struct Case {
    words: &'static [&'static str],
    before: &'static str,
    after: &'static str,
}

const CASES: &[Case] = &[
    Case {
        words: &["check", "t.sql", "p", "1"],
        before: "accepted 3 rows in 2 granules\n",
        after: "accepted 5 rows in 3 granules\n",
    },
    Case {
        words: &["rows", "t.sql", "p"],
        before: BEFORE,
        after: AFTER,
    },
    Case {
        words: &["show", "t.sql", "p"],
        before: "kind Wide\nrows 3\ngranules 2\ncolumn k UInt64\ncolumn s String\n\
            granule 0 2\t1\ngranule 1 1\t3\nlast\t3\n",
        after: "kind Wide\nrows 5\ngranules 3\ncolumn k UInt64\ncolumn s String\n\
            granule 0 2\t4\ngranule 1 2\t6\ngranule 2 1\t8\nlast\t8\n",
    },
    Case {
        words: &[
            "select",
            "t.sql",
            "p",
            "SELECT count(), sum(k) FROM p ORDER BY ALL",
        ],
        before: "3\t6\n",
        after: "5\t30\n",
    },
    Case {
        words: &["write", "t.sql", "q", "1"],
        before: "",
        after: "",
    },
    Case {
        words: &["merge", "t.sql", "1", "m", "p", "p"],
        before: "",
        after: "",
    },
];

/// What a run leaves.
#[derive(Drop)]
struct Left {
    code: u8,
    printed: List<u8>,
    /// How often the shelf failed.
    faults: u64,
}

/// A shelf with the table and a part of these rows.
fn shelf_of<R: Threads + Sync>(rt: &R, alloc: Global, rows: &str) -> Result<SureShelf, Fail> {
    let words = words_of(alloc, &["write", "t.sql", "p", "1"])?;
    let mut shelf = SureShelf::new(alloc, files_of(alloc, &[("t.sql", TABLE)])?, 65536);
    run(
        rt,
        alloc,
        words.as_slice(),
        &mut SureSource::new(List::of_bytes(alloc, rows.as_bytes())?, 65536),
        &mut SureSink::new(alloc, 65536),
        &mut SureSink::new(alloc, 65536),
        &mut shelf,
        &NoGate,
    );
    Ok(shelf)
}

/// What a call leaves where the turn comes after so many calls of the shelf.
fn left_at<R: Threads + Sync>(rt: &R, alloc: Global, case: &Case, turn: u64) -> Result<Left, Fail> {
    let words = words_of(alloc, case.words)?;
    let (first, second) = (shelf_of(rt, alloc, BEFORE)?, shelf_of(rt, alloc, AFTER)?);
    let mut shelf = SwapShelf::new(first, second, turn);
    let mut output = SureSink::new(alloc, 65536);
    let status = run(
        rt,
        alloc,
        words.as_slice(),
        &mut SureSource::new(List::of_bytes(alloc, BEFORE.as_bytes())?, 65536),
        &mut output,
        &mut SureSink::new(alloc, 65536),
        &mut shelf,
        &NoGate,
    );
    Ok(Left {
        code: status.code(),
        printed: List::of_bytes(alloc, output.shown())?,
        faults: shelf.fault_count(),
    })
}

/// Whether a run failed exactly where the shelf did, and printed the whole of one of the answers, or nothing.
fn is_sound(case: &Case, left: &Left) -> bool {
    let printed = left.printed.as_slice();
    let whole = printed == case.before.as_bytes() || printed == case.after.as_bytes();
    (left.code == 3) == (left.faults > 0)
        && (if left.code == 0 {
            whole
        } else {
            printed.is_empty()
        })
}

#[test]
fn the_shelf_turns_at_each_call(rt: HostRuntime) -> Result<(), Fail> {
    for case in CASES {
        for turn in 0..=LAST {
            let left = left_at(&rt, rt.alloc(), case, turn)?;
            assert!(rt; is_sound(case, &left), "{}, turn {turn}", case.before);
        }
        let (first, last) = (
            left_at(&rt, rt.alloc(), case, 0)?,
            left_at(&rt, rt.alloc(), case, LAST)?,
        );
        assert_eq!(rt; first.printed.as_slice(), case.after.as_bytes());
        assert_eq!(rt; last.printed.as_slice(), case.before.as_bytes());
        assert!(rt; first.code == 0 && last.code == 0);
    }
    Ok(())
}
