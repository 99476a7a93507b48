// The weight moment of all holds, kept in one stored figure.
#![tactic(auto)]

ghost use Rattle.std.specs.Prelude.{◌≡◌};
ghost use Rattle.grain.specs.Sum.{weighed_moment};
ghost use Rattle.total.specs.Total.{exchanged};

use grain::NotWeighed;
use record::Hold;

// The weight moment that an answer gives, 0 where it gives none.
pub fn weighed_moment(w: Result<u64, NotWeighed>) -> u64
    ensures { result ≡ weighed_moment w }
{
    w.unwrap_or(0)
}

// The figure with a moment in the place of a hold's: the hold's taken off, the new one put on.
#[tactic(auto, unfolding(crate::specs::Total::exchanged))]
pub fn exchange(figure: u64, old: &Hold, moment: u64) -> u64
    ensures { result ≡ exchanged figure old.now moment }
{
    let others = figure.saturating_sub(weighed_moment(grain::weigh(old)));
    others.saturating_add(moment)
}
