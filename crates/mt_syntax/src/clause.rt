//! The clauses behind a table's engine: each stands at most once.

ghost use Rattle.std.specs.Prelude.{◌≡◌, Some, None, OnOk, OnErr, false, is_none};

use crate::tree::{PartitionText, SettingText};
use mt_phrases::SyntaxError;
use mt_types::List;

/// One clause.
#[derive(Drop)]
pub(crate) enum Clause {
    /// PARTITION BY.
    Partition(List<PartitionText>),
    /// PRIMARY KEY.
    Primary(List<List<u8>>),
    /// ORDER BY.
    Order(List<List<u8>>),
    /// SETTINGS.
    Settings(List<SettingText>),
}

/// The clauses that stand so far, each at most once.
#[derive(Drop)]
pub(crate) struct Clauses {
    /// PARTITION BY.
    pub(crate) partition: Option<List<PartitionText>>,
    /// PRIMARY KEY.
    pub(crate) primary: Option<List<List<u8>>>,
    /// ORDER BY.
    pub(crate) order: Option<List<List<u8>>>,
    /// SETTINGS.
    pub(crate) settings: Option<List<SettingText>>,
}

impl Clauses {
    ghost use Rattle.mt_syntax.specs.Trees.{no_clauses, with_clause};

    /// No clause.
    pub(crate) fn none() -> Clauses
        ensures { result ≡ no_clauses }
    {
        Clauses {
            partition: None,
            primary: None,
            order: None,
            settings: None,
        }
    }

    /// Adds a clause, unless one of its kind is there already.
    pub(crate) fn add(&mut self, clause: Clause) -> Result<(), SyntaxError>
        ensures ok { OnOk result (with_clause self.old clause ≡ Some self.new) }
        ensures err { OnErr result (with_clause self.old clause ≡ None) }
    {
        match clause {
            Clause::Partition(given) => put(&mut self.partition, given),
            Clause::Primary(given) => put(&mut self.primary, given),
            Clause::Order(given) => put(&mut self.order, given),
            Clause::Settings(given) => put(&mut self.settings, given),
        }
    }
}

/// Fills an empty place.
fn put<T: Drop>(place: &mut Option<T>, value: T) -> Result<(), SyntaxError>
    ensures ok { OnOk result ((place.old ≡ None) × (place.new ≡ Some value)) }
    ensures err { OnErr result ((is_none place.old ≡ false) × (place.new ≡ place.old)) }
{
    if place.is_some() {
        return Err(SyntaxError::Bad);
    }
    *place = Some(value);
    Ok(())
}
