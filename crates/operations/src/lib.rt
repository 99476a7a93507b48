// The code of each operation but judge.
#![tactic(auto)]

ghost use Rattle.std.specs.Prelude.{◌≡◌, cond, ◌-◌, ◌≤◌, get_or};
ghost use Rattle.record.specs.Filler.{no_hold};
ghost use Rattle.columns.specs.Columns.{not_added_code, added_code};
ghost use Rattle.grain.specs.Sum.{not_weighed_code, weighed_code};
ghost use Rattle.condition.specs.Condition.{is_held};
ghost use Rattle.operations.specs.Answers.{refusal_code, answer_code, tested, tested_within};
ghost use Rattle.operations.specs.Operations.{ship_operation, load_operation, column_operation, hold_answer, drop_operation, weighing_operation};

use columns::NotAdded;
use condition::Condition;
use grain::NotWeighed;
use record::{Column, Hold, ItemSums, Load, Ship, Weighing};

// Why an operation is refused.
#[derive(Clone, Copy, Debug, PartialEq, Eq)]
pub enum Refusal {
    Limits,
    NoFit,
    NotAbove,
    Full,
    NoHold,
    TooHeavy,
    TooLight,
}

impl From<NotAdded> for Refusal {
    ghost from_gives = { λ why r. refusal_code r ≡ not_added_code why };

    fn from(why: NotAdded) -> Refusal {
        match why {
            NotAdded::Limits => Refusal::Limits,
            NotAdded::Full => Refusal::Full,
            NotAdded::NotAbove => Refusal::NotAbove,
        }
    }
}

impl From<NotWeighed> for Refusal {
    ghost from_gives = { λ why r. refusal_code r ≡ not_weighed_code why };

    fn from(why: NotWeighed) -> Refusal {
        match why {
            NotWeighed::Limits => Refusal::Limits,
            NotWeighed::NoFit => Refusal::NoFit,
        }
    }
}

// The paper's code for each refusal. A table by its name, and no `From`: no `?` ever turns a refusal into its number.
fn refusal_code(why: Refusal) -> u8
    ensures { result ≡ refusal_code why }
{
    match why {
        Refusal::Limits => 20,
        Refusal::NoFit => 21,
        Refusal::NotAbove => 22,
        Refusal::Full => 23,
        Refusal::NoHold => 24,
        Refusal::TooHeavy => 26,
        Refusal::TooLight => 27,
    }
}

// 00, or the code of the refusal: a table likewise.
pub fn answer_code(a: Result<(), Refusal>) -> u8
    ensures { result ≡ answer_code a }
{
    match a {
        Ok(()) => 0,
        Err(why) => refusal_code(why),
    }
}

// A test that refuses: one line, for which a crate below this one and `line_codes` would have to be made to hold it for both.
fn tested(passed: bool, why: Refusal) -> Result<(), Refusal>
    ensures { result ≡ tested why passed }
{
    if passed { Ok(()) } else { Err(why) }
}

// 00 or 20.
#[tactic(auto, unfolding(crate::specs::Operations::ship_operation), using(crate::proofs::Answered::one_answered))]
pub fn ship_answer(s: Ship) -> Result<(), Refusal>
    ensures { (c : Condition) → answer_code result ≡ (ship_operation c s).code }
{
    tested(limits::ship_limits(s), Refusal::Limits)
}

// 00 or 20.
#[tactic(auto, unfolding(crate::specs::Operations::load_operation), using(crate::proofs::Answered::one_answered))]
pub fn load_answer(l: Load) -> Result<(), Refusal>
    ensures { (c : Condition) → answer_code result ≡ (load_operation c l).code }
{
    tested(limits::load_limits(l), Refusal::Limits)
}

// What a list of columns answers, as an operation's answer. This and `weighed_answer` are no one generic function: its contract would have to be given the codes of
// each of the two errors.
fn added_answer(a: Result<(), NotAdded>) -> Result<(), Refusal>
    ensures { answer_code result ≡ added_code a }
{
    Ok(a?)
}

// 00, or 20, 23, 22 in this order.
#[tactic(auto, unfolding(crate::specs::Operations::column_operation), using(crate::proofs::Effects::change_code))]
pub fn column_answer(c: &Condition, k: Column) -> Result<(), Refusal>
    ensures { answer_code result ≡ (column_operation c.now k).code }
{
    added_answer(columns::column_answer(c.columns, k))
}

// 00, or 20, 21: the answer of a hold's weighing without its moment.
pub fn weighed_answer(w: Result<u64, NotWeighed>) -> Result<(), Refusal>
    ensures { answer_code result ≡ weighed_code w }
{
    w?;
    Ok(())
}

// The answer to a hold line: its code is 00, or 20, 21.
#[tactic(auto, unfolding(crate::specs::Operations::hold_answer))]
pub fn hold_answer(n: u32, h: &Hold) -> Result<u64, NotWeighed>
    ensures { result ≡ hold_answer n h.now }
{
    if !limits::place_limits(n) {
        return Err(NotWeighed::Limits);
    }
    grain::weigh(h)
}

// Whether there is a hold n.
#[tactic(auto, using(crate::proofs::Taking::count_at))]
fn is_held(holds: &[Hold; 16], n: u32) -> bool
    requires { (1 ≤ n) × (n ≤ 16) }
    ensures { result ≡ is_held (get_or holds.now (n - 1) no_hold) }
{
    0 < holds[(n - 1) as usize].head.count
}

// 00, or 20, 24.
#[tactic(auto, unfolding(crate::specs::Operations::drop_operation), using(storing::proofs::Taking::place_within, crate::proofs::Answered::one_answered))]
pub fn drop_answer(c: &Condition, n: u32) -> Result<(), Refusal>
    ensures { answer_code result ≡ (drop_operation c.now n).code }
{
    if !limits::place_limits(n) {
        return Err(Refusal::Limits);
    }
    tested(is_held(&c.holds, n), Refusal::NoHold)
}

// Limits, and a test behind them.
fn tested_within(inside: bool, passed: bool, why: Refusal) -> Result<(), Refusal>
    ensures { result ≡ tested_within inside passed why }
{
    tested(inside, Refusal::Limits)?;
    tested(passed, why)
}

// A line of weights where these sums are held: weight 00, or 20, 26; weighed 00, or 20, 27; unweigh 00.
#[tactic(auto, unfolding(crate::specs::Operations::weighing_operation), using(crate::proofs::Answered::weight_answered, crate::proofs::Answered::weighed_answered))]
pub fn weighing_answer(s: ItemSums, w: Weighing) -> Result<(), Refusal>
    ensures { (c : Condition) → c.sums ≡ s → answer_code result ≡ (weighing_operation c w).code }
{
    match w {
        Weighing::Weight(i) => tested_within(
            limits::item_limits(i),
            weights::has_room(s, i),
            Refusal::TooHeavy,
        ),
        Weighing::Weighed(fs) => tested_within(
            limits::is_rise(fs),
            weights::makes_load(s),
            Refusal::TooLight,
        ),
        Weighing::Unweigh => Ok(()),
    }
}
