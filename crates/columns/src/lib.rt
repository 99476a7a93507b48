// The list of columns: what it answers to one more, the list with it, and the two columns around a displacement.
#![tactic(auto)]

ghost use Rattle.std.specs.Prelude.{◌≡◌, ◌<◌};
ghost use Rattle.std.specs.List.{list_all};
ghost use Rattle.record.specs.Held.{held};
ghost use Rattle.limits.specs.Limits.{column_limits};
ghost use Rattle.columns.specs.Columns.{column_answer, in_order, Rising, with_column};
ghost use Rattle.columns.specs.Search.{columns_around, FirstAround};

use record::{Column, Columns};

// Why a list of columns does not take one more.
#[derive(Clone, Copy, Debug, PartialEq, Eq)]
pub enum NotAdded {
    Limits,
    Full,
    NotAbove,
}

// What the columns held answer to one more.
pub fn column_answer(cs: Columns, k: Column) -> Result<(), NotAdded>
    ensures { result ≡ column_answer (held cs) k }
{
    if !limits::column_limits(k) {
        return Err(NotAdded::Limits);
    }
    let held = cs.held();
    if cs.places.len() <= held.len() {
        return Err(NotAdded::Full);
    }
    match held.last() {
        Some(last) if k.d <= last.d => Err(NotAdded::NotAbove),
        _ => Ok(()),
    }
}

// The columns with one more. In a copy: of columns behind a `&mut` the prover does not know that there are twenty places.
pub fn with_column(cs: Columns, k: Column) -> Columns
    requires { cs.count < 20 }
    ensures { result ≡ with_column cs k }
{
    let at = cs.count as usize;
    let mut t = cs;
    t.places[at] = k;
    t.count = cs.count + 1;
    t
}

// The place of the first of two neighbours around d.
fn first_around(ks: &[Column], d: u32) -> Option<usize>
    ensures { FirstAround d ks.now result }
{
    ks.windows(2)
        .position(|pair| pair[0].d <= d && d <= pair[1].d)
}

// The place of the first of two neighbouring columns around d.
#[tactic(auto, using(crate::proofs::Searching::first_is))]
pub fn columns_around(cs: Columns, d: u32) -> Option<usize>
    ensures { result ≡ columns_around d (held cs) }
{
    first_around(cs.held(), d)
}

// Whether each column is within its limits.
fn all_within(ks: &[Column]) -> bool
    ensures { result ≡ list_all column_limits ks.now }
{
    ks.iter().all(|k| limits::column_limits(*k))
}

// Whether each column is below the one behind it.
fn all_rise(ks: &[Column]) -> bool
    ensures { Rising ks.now result }
{
    ks.windows(2).all(|pair| pair[0].d < pair[1].d)
}

// Whether each column held is within its limits and above the one before.
#[tactic(auto, using(crate::proofs::Order::order_limits))]
pub fn in_order(cs: Columns) -> bool
    ensures { result ≡ in_order (held cs) }
{
    let held = cs.held();
    all_within(held) && all_rise(held)
}
