//! The command that words are (docs/CLI.md), parsed once.
ghost use Rattle.std.specs.Prelude.{◌≡◌, IfSome, map};
ghost use Rattle.std.specs.Option.{option_map};
ghost use Rattle.std.specs.String.{string_bytes};
ghost use Rattle.mt_run.specs.Parsed.{IsWithin, command_for};
ghost use Rattle.mt_run.specs.Words.{check_command, command_named, command_of, merge_command, rows_command};
ghost use Rattle.mt_run.specs.Words.{select_command, show_command, trial_command, write_command};

use crate::words::{are_inputs, are_paths, workers_in};
use mt_trial::{number_in, rows_in};
use mt_workers::Workers;

/// A command with its operands. Tables, parts and targets are paths.
#[derive(Clone, Copy)]
pub(crate) enum Parsed<'w> {
    /// `write TABLE PART WORKERS`
    Write {
        table: &'w str,
        part: &'w str,
        workers: Workers,
    },
    /// `check TABLE PART WORKERS`
    Check {
        table: &'w str,
        part: &'w str,
    },
    /// `rows TABLE PART`
    Rows {
        table: &'w str,
        part: &'w str,
    },
    /// `show TABLE PART`
    Show {
        table: &'w str,
        part: &'w str,
    },
    /// `select TABLE PART QUERY`
    Select {
        table: &'w str,
        part: &'w str,
        query: &'w str,
    },
    /// `merge TABLE WORKERS OUT IN ..`
    Merge {
        table: &'w str,
        target: &'w str,
        inputs: &'w [String],
        workers: Workers,
    },
    /// `trial NUMBER ROWS WORKERS`
    Trial {
        number: u64,
        rows: u64,
        workers: Workers,
    },
}

fn write_command(operands: &[String]) -> Option<Parsed<'_>>
    ensures same { option_map command_for result ≡ write_command (map string_bytes operands.now) }
    ensures within { IfSome result IsWithin }
{
    let [table, part, workers] = operands else {
        return None;
    };
    let (table, part) = (table.as_str(), part.as_str());
    let workers = workers_in(workers.as_str().as_bytes())?;
    if !are_paths(table, part) {
        return None;
    }
    Some(Parsed::Write {
        table,
        part,
        workers,
    })
}

fn check_command(operands: &[String]) -> Option<Parsed<'_>>
    ensures same { option_map command_for result ≡ check_command (map string_bytes operands.now) }
    ensures within { IfSome result IsWithin }
{
    let [table, part, workers] = operands else {
        return None;
    };
    let (table, part) = (table.as_str(), part.as_str());
    workers_in(workers.as_str().as_bytes())?;
    if !are_paths(table, part) {
        return None;
    }
    Some(Parsed::Check { table, part })
}

fn rows_command(operands: &[String]) -> Option<Parsed<'_>>
    ensures same { option_map command_for result ≡ rows_command (map string_bytes operands.now) }
    ensures within { IfSome result IsWithin }
{
    let [table, part] = operands else {
        return None;
    };
    let (table, part) = (table.as_str(), part.as_str());
    if !are_paths(table, part) {
        return None;
    }
    Some(Parsed::Rows { table, part })
}

fn show_command(operands: &[String]) -> Option<Parsed<'_>>
    ensures same { option_map command_for result ≡ show_command (map string_bytes operands.now) }
    ensures within { IfSome result IsWithin }
{
    let [table, part] = operands else {
        return None;
    };
    let (table, part) = (table.as_str(), part.as_str());
    if !are_paths(table, part) {
        return None;
    }
    Some(Parsed::Show { table, part })
}

fn select_command(operands: &[String]) -> Option<Parsed<'_>>
    ensures same { option_map command_for result ≡ select_command (map string_bytes operands.now) }
    ensures within { IfSome result IsWithin }
{
    let [table, part, query] = operands else {
        return None;
    };
    let (table, part, query) = (table.as_str(), part.as_str(), query.as_str());
    if !are_paths(table, part) {
        return None;
    }
    Some(Parsed::Select { table, part, query })
}

fn merge_command(operands: &[String]) -> Option<Parsed<'_>>
    ensures same { option_map command_for result ≡ merge_command (map string_bytes operands.now) }
    ensures within { IfSome result IsWithin }
{
    let [table, workers, target, inputs @ ..] = operands else {
        return None;
    };
    let (table, target) = (table.as_str(), target.as_str());
    let workers = workers_in(workers.as_str().as_bytes())?;
    if !are_paths(table, target) || !are_inputs(inputs) {
        return None;
    }
    Some(Parsed::Merge {
        table,
        target,
        inputs,
        workers,
    })
}

fn trial_command(operands: &[String]) -> Option<Parsed<'_>>
    ensures same { option_map command_for result ≡ trial_command (map string_bytes operands.now) }
    ensures within { IfSome result IsWithin }
{
    let [number, rows, workers] = operands else {
        return None;
    };
    let workers = workers_in(workers.as_str().as_bytes())?;
    let number = number_in(number.as_str().as_bytes())?;
    let rows = rows_in(rows.as_str().as_bytes())?;
    Some(Parsed::Trial {
        number,
        rows,
        workers,
    })
}

/// The command of a name, where the words after it have its form.
fn command_named<'w>(name: &str, operands: &'w [String]) -> Option<Parsed<'w>>
    ensures same { option_map command_for result ≡ command_named name.now (map string_bytes operands.now) }
    ensures within { IfSome result IsWithin }
{
    match name {
        "write" => write_command(operands),
        "check" => check_command(operands),
        "rows" => rows_command(operands),
        "show" => show_command(operands),
        "select" => select_command(operands),
        "merge" => merge_command(operands),
        "trial" => trial_command(operands),
        _ => None,
    }
}

/// The command that the words are, if they are one.
pub(crate) fn command_of(words: &[String]) -> Option<Parsed<'_>>
    ensures same { option_map command_for result ≡ command_of (map string_bytes words.now) }
    ensures within { IfSome result IsWithin }
{
    match words {
        [name, operands @ ..] => command_named(name.as_str(), operands),
        [] => None,
    }
}
