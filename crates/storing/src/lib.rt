// How a record is put into the condition, of what was answered with 00.
#![tactic(auto)]

ghost use Rattle.std.specs.Prelude.{◌≡◌, cond, length, leb};
ghost use Rattle.record.specs.Held.{held};
ghost use Rattle.limits.specs.Limits.{place_limits};
ghost use Rattle.columns.specs.Columns.{with_column};
ghost use Rattle.storing.specs.Storing.{with_ship, with_load, with_columns, with_hold, with_sums};

use condition::Condition;
use record::{Column, Columns, Hold, ItemSums, Load, Ship};

// Each changes one field in place: the condition is large, and is not copied for it.

// A new ship replaces the former one.
pub fn store_ship(c: &mut Condition, s: Ship)
    ensures { c.new ≡ with_ship c.old s }
{
    c.ship = Some(s);
}

// A new load replaces the former one.
pub fn store_load(c: &mut Condition, l: Load)
    ensures { c.new ≡ with_load c.old l }
{
    c.load = Some(l);
}

// Whether all places for columns are taken. Apart, since of a condition behind a reference the prover doesn't know that its columns have twenty places.
#[tactic(auto, using(crate::proofs::Columns::full_held))]
fn is_full(ks: Columns) -> bool
    ensures value { result ≡ leb 20 (length (held ks)) }
    ensures counted { result ≡ leb 20 ks.count }
{
    ks.places.len() <= ks.count as usize
}

// One column more, where a place is left for it.
pub fn store_column(c: &mut Condition, k: Column)
    ensures { c.new ≡ cond (leb 20 (length (held c.old.columns))) c.old (with_columns c.old (with_column c.old.columns k)) }
{
    let ks = c.columns;
    if is_full(ks) {
        return;
    }
    c.columns = columns::with_column(ks, k);
}

// The hold in its place, where there is one, and its moment in the figure; a drop puts an empty one there, with 0.
#[tactic(auto, using(crate::proofs::Taking::place_within, crate::proofs::Taking::place_any))]
pub fn store_hold(c: &mut Condition, n: u32, h: &Hold, moment: u64)
    ensures { c.new ≡ cond (place_limits n) (with_hold c.old n h.now moment) c.old }
{
    if !limits::place_limits(n) {
        return;
    }
    let place = (n - 1) as usize;
    c.total = total::exchange(c.total, &c.holds[place], moment);
    c.holds[place] = *h;
}

// The weight items, kept by their sums.
pub fn store_sums(c: &mut Condition, s: ItemSums)
    ensures { c.new ≡ with_sums c.old s }
{
    c.sums = s;
}
