// The limits of a record's numbers (code 20).
#![tactic(auto)]

ghost use Rattle.std.specs.Prelude.{◌≡◌, ◌<◌};
ghost use Rattle.std.specs.List.{list_all};
ghost use Rattle.whole.specs.Lists.{within};
ghost use Rattle.limits.specs.Limits.{displacement, rise, ship_limits, load_limits, column_limits, place_limits, item_limits};

use record::{Column, Load, Ship, WeightItem};

// Whether d is a displacement of a ship.
#[tactic(auto, unfolding(whole::specs::Lists::within))]
fn is_displacement(d: u32) -> bool
    ensures { result ≡ displacement d }
{
    (100..=400000).contains(&d)
}

// Whether fs is a free-surface rise.
#[tactic(auto, unfolding(whole::specs::Lists::within))]
pub fn is_rise(fs: u16) -> bool
    ensures { result ≡ rise fs }
{
    (0..=10000).contains(&fs)
}

#[tactic(auto, unfolding(whole::specs::Lists::within, crate::specs::Limits::ship_limits))]
pub fn ship_limits(s: Ship) -> bool
    ensures { result ≡ ship_limits s }
{
    (1..=9000).contains(&s.rule.edge()) && (1..=9000).contains(&s.flood)
}

#[tactic(auto, unfolding(whole::specs::Lists::within, crate::specs::Limits::load_limits))]
pub fn load_limits(l: Load) -> bool
    ensures { result ≡ load_limits l }
{
    is_displacement(l.d) && (1..=50000).contains(&l.kg) && is_rise(l.fs)
}

// Whether each KN is within its limits.
#[tactic(auto, unfolding(whole::specs::Lists::within))]
fn values_within(kn: [u16; 10]) -> bool
    ensures { result ≡ list_all (within 0 50000) kn }
{
    kn.iter().all(|v| (0..=50000).contains(v))
}

#[tactic(auto, unfolding(whole::specs::Lists::within, crate::specs::Limits::column_limits), using(whole::proofs::Lists::list_all_is))]
pub fn column_limits(k: Column) -> bool
    ensures { result ≡ column_limits k }
{
    is_displacement(k.d) && (1..=50000).contains(&k.km) && k.kn[0] == 0 && values_within(k.kn)
}

// The number of a hold.
#[tactic(auto, unfolding(whole::specs::Lists::within))]
pub fn place_limits(n: u32) -> bool
    ensures { result ≡ place_limits n }
{
    (1..=16).contains(&n)
}

#[tactic(auto, unfolding(crate::specs::Limits::item_limits, whole::specs::Lists::within))]
pub fn item_limits(i: WeightItem) -> bool
    ensures { result ≡ item_limits i }
{
    (1..=400000).contains(&i.tonnes) && (0..=50000).contains(&i.height)
}
