//! The program `mtpart`: the real input, outputs and folders, and the exit code.
#![tactic(auto)]

use mt_host::{DirShelf, StdSink, StdSource};
use mt_note::report;
use mt_run::{Status, run};
use mt_shelf::NoGate;
use std::env;
use std::io::ErrorKind;
use std::process::ExitCode;

/// The words of the call, without the program's name. A word that isn't UTF-8 is no command's, so
/// then there are none.
fn words_of(rt: &HostRuntime) -> Option<Vec<String>> {
    let mut words = Vec::new(rt.alloc());
    let mut args = match env::args(rt) {
        Ok(args) => args,
        Err(error) if error.kind() == ErrorKind::OutOfMemory => return None,
        Err(_) => return Some(words),
    };
    args.next();
    for word in args {
        words.push(word).ok()?;
    }
    Some(words)
}

fn main(rt: HostRuntime) -> ExitCode {
    let mut notes = StdSink::new(rt.stderr());
    let status = match words_of(&rt) {
        Some(words) => run(
            &rt,
            rt.alloc(),
            words.as_slice(),
            &mut StdSource::new(rt.reader()),
            &mut StdSink::new(rt.stdout()),
            &mut notes,
            &mut DirShelf::new(&rt),
            &NoGate,
        ),
        None => report(rt.alloc(), &mut notes, Status::NoMemory),
    };
    ExitCode::from(status.code())
}
