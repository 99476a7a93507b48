// The condition that the panel keeps.
#![tactic(auto)]

ghost use Rattle.std.specs.Prelude.{◌≡◌, replicate};
ghost use Rattle.record.specs.Filler.{no_hold, no_column};
ghost use Rattle.condition.specs.Condition.{empty};

use record::{Column, Columns, Hold, ItemSums, Load, Ship};

// One loading condition of one ship, in fixed memory. A place of `holds` with no parts holds no hold, which the number of its parts says already: with an Option there
// would be two ways to hold none, `None` and a hold of no parts. `total` is the weight moment of all holds, in kg·m;
// `sums` are those of the weight items taken since the start or the last removal.
#[derive(Clone, Copy)]
pub struct Condition {
    pub ship: Option<Ship>,
    pub load: Option<Load>,
    pub columns: Columns,
    pub holds: [Hold; 16],
    pub total: u64,
    pub sums: ItemSums,
}

// The condition at the start, and after a clear. Not by `Default`, for the reason of `record::no_hold`.
pub fn empty_condition() -> Condition
    ensures { result ≡ empty }
{
    let h = record::no_hold();
    let holds = [h; 16];
    Condition {
        ship: None,
        load: None,
        columns: record::no_columns(),
        holds,
        total: 0,
        sums: record::no_sums(),
    }
}

// ---- a clear

// Both apart from `clear`, since of a condition behind a reference the prover doesn't know that it has sixteen places for holds and twenty for columns.
fn drop_holds(holds: &mut [Hold; 16])
    ensures { holds.new ≡ replicate 16 no_hold }
{
    holds.fill(record::no_hold());
}

fn drop_columns(places: &mut [Column; 20])
    ensures { places.new ≡ replicate 20 no_column }
{
    places.fill(record::no_column());
}

// The condition emptied in place: it is large, and an empty one that is made first is written and copied several times.
pub fn clear(c: &mut Condition)
    ensures { c.new ≡ empty }
{
    c.ship = None;
    c.load = None;
    c.columns.count = 0;
    drop_columns(&mut c.columns.places);
    drop_holds(&mut c.holds);
    c.total = 0;
    c.sums = record::no_sums();
}
