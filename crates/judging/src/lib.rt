// Judge: the codes 30 to 34, and the verdict.
#![tactic(auto)]

ghost use Rattle.std.specs.Prelude.{◌≡◌, ◌&&◌, Some, length, leb};
ghost use Rattle.record.specs.Held.{held};
ghost use Rattle.columns.specs.Columns.{in_order};
ghost use Rattle.stability.specs.Verdict.{shortfall_code, judgement_code};
ghost use Rattle.judging.specs.Judge.{refusal_code, judged_of, judged_at, Between};

use arms::{Basis, SoundBasis};
use condition::Condition;
use record::{Column, Columns, Load, Ship};
use stability::{Shortfall, Verdict};

// The greatest weight moment that judge takes, in kg·m.
const GREATEST_WEIGHT: u64 = 1000000000;

// Why judge gives no verdict: codes 30 to 34.
#[derive(Clone, Copy, Debug, PartialEq, Eq)]
pub enum NotJudged {
    NoShip,
    FewColumns,
    NoLoad,
    OutsideColumns,
    TooHeavy,
}

// Whether two columns are held, and all are in order. That they have twenty places, which the prover knows of a parameter by value alone, `judge` takes from here.
#[tactic(auto, using(crate::proofs::Columns::two_held))]
fn enough_columns(cs: Columns) -> bool
    ensures value { result ≡ (leb 2 (length (held cs)) && in_order (held cs)) }
    ensures places { length cs.places ≡ 20 }
{
    2 <= cs.count && columns::in_order(cs)
}

// Gives the column back, for the prover: that it has ten KN is known of a parameter, and was not proved of an array's entry.
fn of_ten(k: Column) -> Column
    ensures value { result ≡ k }
    ensures kn_len { length result.kn ≡ 10 }
{
    k
}

// The verdict between the columns i and i + 1, or 34.
#[tactic(auto, using(crate::proofs::Columns::between_below))]
fn judge_between(c: &Condition, s: Ship, l: Load, i: usize) -> Result<Verdict, NotJudged>
    requires { Between c.now l i }
    ensures { result ≡ judged_at c.now s l (Some i) }
{
    let weight = c.total;
    if GREATEST_WEIGHT < weight {
        return Err(NotJudged::TooHeavy);
    }
    let basis = Basis {
        low: of_ten(c.columns.places[i]),
        high: of_ten(c.columns.places[i + 1]),
        load: l,
        weight,
    };
    Ok(stability::judge(s, SoundBasis { basis }))
}

// 30 to 33 in their order, then 34 or the verdict.
#[tactic(auto, unfolding(crate::specs::Judge::judged_of))]
pub fn judge(c: &Condition) -> Result<Verdict, NotJudged>
    ensures { result ≡ judged_of c.now }
{
    let ship = c.ship.ok_or(NotJudged::NoShip)?;
    if !limits::ship_limits(ship) {
        return Err(NotJudged::NoShip);
    }
    if !enough_columns(c.columns) {
        return Err(NotJudged::FewColumns);
    }
    let load = c.load.ok_or(NotJudged::NoLoad)?;
    if !limits::load_limits(load) {
        return Err(NotJudged::NoLoad);
    }
    let i = columns::columns_around(c.columns, load.d).ok_or(NotJudged::OutsideColumns)?;
    judge_between(c, ship, load, i)
}

// The paper's code for each refusal. A table by its name, and no `From`: no `?` ever turns a refusal into its number, and `u8::from` would not say which
// paper's table it is. So are the two below.
pub fn refusal_code(r: NotJudged) -> u8
    ensures { result ≡ refusal_code r }
{
    match r {
        NotJudged::NoShip => 30,
        NotJudged::FewColumns => 31,
        NotJudged::NoLoad => 32,
        NotJudged::OutsideColumns => 33,
        NotJudged::TooHeavy => 34,
    }
}

// The paper's code for each test that fails.
fn shortfall_code(why: Shortfall) -> u8
    ensures { result ≡ shortfall_code why }
{
    match why {
        Shortfall::ShortOfGm => 40,
        Shortfall::ShortAtHeel => 41,
        Shortfall::ShortBeyond => 42,
        Shortfall::ShortOfArea => 43,
    }
}

// The paper's code for a judgement.
pub fn judgement_code(j: Result<(), Shortfall>) -> u8
    ensures { result ≡ judgement_code j }
{
    match j {
        Ok(()) => 0,
        Err(why) => shortfall_code(why),
    }
}
