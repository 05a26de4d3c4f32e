//! Where an aggregate stands among others.

ghost use Rattle.std.specs.Prelude.{◌≡◌, ◌≤◌, length};
ghost use Rattle.mt_defs.specs.Projections as defined;

use mt_table::Aggregate;
use mt_types::Agg;

/// Where an aggregate first stands among some; their number where it isn't among them.
pub fn aggregate_index(aggs: &[Aggregate], aggregate: &Aggregate) -> usize
    ensures index { result ≡ defined.aggregate_index aggs.now aggregate.now }
    ensures within { result ≤ length aggs.now }
{
    for (place, other) in aggs.iter().enumerate() {
        if is_same_aggregate(other, aggregate) {
            return place;
        }
    }
    aggs.len()
}

fn is_same_aggregate(a: &Aggregate, b: &Aggregate) -> bool
    ensures { result ≡ defined.is_same_aggregate a.now b.now }
{
    match (a, b) {
        (Aggregate::Count, Aggregate::Count) => true,
        (Aggregate::Of(f, i), Aggregate::Of(g, j)) => is_same_agg(*f, *g) && *i == *j,
        _ => false,
    }
}

fn is_same_agg(f: Agg, g: Agg) -> bool
    ensures { result ≡ defined.is_same_agg f g }
{
    matches!(
        (f, g),
        (Agg::Sum, Agg::Sum) | (Agg::Min, Agg::Min) | (Agg::Max, Agg::Max)
    )
}
