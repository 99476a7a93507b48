// The sums of the weight items that were taken, and the load that they make.
#![tactic(auto)]

ghost use Rattle.std.specs.Prelude.{◌≡◌, cond};
ghost use Rattle.weights.specs.Weights.{has_room, with_item, makes_load, weighed_kg, weighed_load};

use record::{ItemSums, Load, WeightItem};

// The most that items weigh together, and the least that makes a load, in tonnes.
const GREATEST_SUM: u64 = 400000;

const LEAST_SUM: u32 = 100;

// What a KG is stored as that its 16 bits do not hold: above every limit.
const GREATEST_KG: u64 = 65535;

// Whether the sum with one item more does not pass 400,000 tonnes.
pub fn has_room(s: ItemSums, i: WeightItem) -> bool
    ensures { result ≡ has_room s i }
{
    (s.tonnes as u64) + (i.tonnes as u64) <= GREATEST_SUM
}

// The sums with one item more, where there is room for it.
#[tactic(auto, unfolding(crate::specs::Weights::with_item))]
pub fn with_item(s: ItemSums, i: WeightItem) -> ItemSums
    ensures { result ≡ cond (has_room s i) (with_item s i) s }
{
    if !has_room(s, i) {
        return s;
    }
    let product = (i.tonnes as u64) * (i.height as u64);
    ItemSums {
        tonnes: s.tonnes + i.tonnes,
        products: s.products.saturating_add(product),
    }
}

// Whether the items are enough to make a load.
pub fn makes_load(s: ItemSums) -> bool
    ensures { result ≡ makes_load s }
{
    LEAST_SUM <= s.tonnes
}

// KG of the items: the summed products divided by the sum of tonnes, rounded up, with 1 for 0. In the words of its definition: `clamp` takes the least last, and
// `as` keeps what is no greater than 65,535.
#[tactic(auto, unfolding(crate::specs::Weights::weighed_kg), using(crate::proofs::Weights::kg_undivided, whole::proofs::Dividing::div_ceil_is))]
fn weighed_kg(s: ItemSums) -> u16
    ensures { result ≡ weighed_kg s }
{
    if s.tonnes == 0 {
        return 1;
    }
    let kg = s.products.div_ceil(s.tonnes as u64);
    kg.max(1).min(GREATEST_KG) as u16
}

// The load that the items make.
pub fn weighed_load(s: ItemSums, fs: u16) -> Load
    ensures { result ≡ weighed_load s fs }
{
    Load {
        d: s.tonnes,
        kg: weighed_kg(s),
        fs,
    }
}
