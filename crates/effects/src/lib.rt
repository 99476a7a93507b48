// The effect of a request: what it puts into the condition.
#![tactic(auto)]

ghost use Rattle.std.specs.Prelude.{◌≡◌};
ghost use Rattle.effects.specs.Effect.{effect_of};

use condition::Condition;
use forms::Request;
use record::Weighing;

// What a request that was answered with 00 puts into the condition, with the moment that the answer to a hold found. In place: the condition is large.
#[tactic(auto, unfolding(crate::specs::Effect::effect_of))]
pub fn effect(c: &mut Condition, r: &Request, moment: u64)
    ensures { c.new ≡ effect_of c.old r.now moment }
{
    match r {
        Request::ShipLine(s) => storing::store_ship(c, *s),
        Request::ColumnLine(k) => storing::store_column(c, *k),
        Request::LoadLine(l) => storing::store_load(c, *l),
        Request::HoldLine(n, h) => storing::store_hold(c, *n, h, moment),
        Request::DropLine(n) => storing::store_hold(c, *n, &record::no_hold(), 0),
        Request::JudgeLine | Request::ShowLine | Request::TotalLine => {}
        Request::ClearLine => condition::clear(c),
        Request::WeighingLine(w) => match w {
            Weighing::Weight(i) => storing::store_sums(c, weights::with_item(c.sums, *i)),
            Weighing::Weighed(fs) => storing::store_load(c, weights::weighed_load(c.sums, *fs)),
            Weighing::Unweigh => storing::store_sums(c, record::no_sums()),
        },
    }
}
