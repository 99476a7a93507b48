// GM, righting and heeling arms, and DIFF at the ten angles.
#![tactic(auto)]

ghost use Rattle.std.specs.Prelude.{◌≡◌, ◌+◌, ◌*◌, ◌/◌, ◌<◌, ◌≤◌, ◌^◌};
ghost use Rattle.sign.specs.Sign.{plus, minus};
ghost use Rattle.whole.specs.Line.{on_line};
ghost use Rattle.arms.specs.Angles.{angle};
ghost use Rattle.arms.specs.Arms.{gm, righting_arm, heeling_arm, righting_arms, heeling_arms, diffs};
ghost use Rattle.arms.specs.Judgeable.{Judgeable};
ghost use Rattle.arms.specs.Walk.{left_over, left_overs, ReachOf, Small, Bounded};

use record::{Column, Load};
use std::array;

// What the arms are read from: the two columns around the displacement, the load, and the total weight moment W in kg·m.
#[derive(Clone, Copy)]
pub struct Basis {
    pub low: Column,
    pub high: Column,
    pub load: Load,
    pub weight: u64,
}

// A basis within its limits, its columns around D. A basis alone carries no such fact: judge's definition makes one of any condition's
// records.
#[derive(Clone, Copy)]
pub struct SoundBasis {
    pub basis: Basis,
    ghost judgeable: { Judgeable basis },
}

// DIFF at each of the ten angles, small enough for a straight line between two of them.
#[derive(Clone, Copy)]
pub struct Diffs {
    pub values: [i64; 10],
    ghost bounded: { Bounded values },
}

// The ten angles, in hundredths of a degree, each with its sine, in millionths.
const ANGLES: [(u64, u64); 10] = [
    (0, 0),
    (500, 87156),
    (1000, 173648),
    (1200, 207912),
    (1500, 258819),
    (2000, 342020),
    (2500, 422618),
    (3000, 500000),
    (3500, 573576),
    (4000, 642788),
];

// The k-th of the ten angles. Here and below k < 10 is the bound of an index: a type of such a place is no plainer, since each closure would
// have to make one of its k.
#[tactic(auto, unfolding(crate::specs::Angles::angle))]
pub fn angle_at(k: usize) -> u64
    requires { k < 10 }
    ensures { result ≡ angle k }
{
    ANGLES[k].0
}

// The difference of a righting arm and a heeling arm.
#[tactic(auto, using(crate::proofs::Tens::left_over_is))]
fn left_over(righting: i64, heeling: u64) -> i64
    requires { (plus righting < 2 ^ 40) × (minus righting < 2 ^ 40) × (heeling < 2 ^ 40) }
    ensures { result ≡ left_over righting heeling }
{
    sign::difference(
        sign::above_zero(righting),
        sign::below_zero(righting) + heeling,
    )
}

// A thousand times the value at `past` of `span` on the line from x to y: from mm to micrometres.
#[tactic(auto, using(whole::proofs::Lines::line_le))]
fn arm_over(span: u64, past: u64, x: u64, y: u64) -> u64
    requires { (past ≤ span) × (span ≤ 400000) × (x < 65536) × (y < 65536) }
    ensures value { result ≡ 1000 * on_line span past x y }
    ensures upper_bound { result ≤ 2 ^ 45 }
{
    1000 * whole::on_line(span, past, x, y)
}

// D2 - D1, D - D1 and fluid KG.
#[derive(Clone, Copy)]
struct Reach {
    span: u64,
    past: u64,
    fluid: u64,
}

#[tactic(auto, using(crate::proofs::Bounds::span_some, crate::proofs::Bounds::span_le, crate::proofs::Bounds::past_le, crate::proofs::Bounds::fluid_le))]
fn reach_of(s: SoundBasis) -> Reach
    ensures { ReachOf s.basis result }
{
    let b = s.basis;
    Reach {
        span: (b.high.d - b.low.d) as u64,
        past: (b.load.d - b.low.d) as u64,
        fluid: b.load.kg as u64 + b.load.fs as u64,
    }
}

// GM, rounded down.
#[tactic(auto, unfolding(crate::specs::Arms::gm))]
pub fn gm_of(s: SoundBasis) -> i64
    ensures { result ≡ gm s.basis }
{
    let b = s.basis;
    let t = reach_of(s);
    let km = arm_over(t.span, t.past, b.low.km as u64, b.high.km as u64);
    whole::rounded_down(km, 1000 * t.fluid * t.span, t.span)
}

// The righting arm at the k-th angle: KN rounded down, since it rights the ship, less fluid KG times the sine rounded up.
#[tactic(auto, unfolding(crate::specs::Angles::sine, crate::specs::Arms::kn_arm, crate::specs::Arms::kg_arm, crate::specs::Arms::righting_arm), using(crate::proofs::Bounds::value_le, crate::proofs::Bounds::kn_le, crate::proofs::Bounds::kg_le, crate::proofs::Tens::sine_le, sign::proofs::Signs::sub_reads, whole::proofs::Dividing::div_ceil_is))]
fn righting_at(s: SoundBasis, k: usize) -> i64
    requires { k < 10 }
    ensures value { result ≡ righting_arm s.basis k }
    ensures plus_bound { plus result ≤ 2 ^ 26 }
    ensures minus_bound { minus result ≤ 2 ^ 26 }
{
    let b = s.basis;
    let t = reach_of(s);
    let kn = arm_over(t.span, t.past, b.low.kn[k] as u64, b.high.kn[k] as u64) / t.span;
    let kg = (t.fluid * ANGLES[k].1).div_ceil(1000);
    sign::difference(kn, kg)
}

// The heeling arm at the k-th angle, rounded up, since it heels her.
#[tactic(auto, unfolding(crate::specs::Arms::heeling_arm), using(crate::proofs::Bounds::load_bounds, crate::proofs::Bounds::heeling_le, crate::proofs::Tens::angle_le, whole::proofs::Dividing::div_ceil_is))]
fn heeling_at(s: SoundBasis, k: usize) -> u64
    requires { k < 10 }
    ensures value { result ≡ heeling_arm s.basis k }
    ensures upper_bound { result ≤ 2 ^ 34 }
{
    let b = s.basis;
    let moment = 1000 * b.weight * (20000 - angle_at(k));
    moment.div_ceil(20000 * b.load.d as u64)
}

// The righting arms at the ten angles, the heeling arms, and the differences, each an array of ten, as document 01 has them.
fn righting_arms(s: SoundBasis) -> [i64; 10]
    ensures { result ≡ righting_arms s.basis }
{
    array::from_fn(|k| righting_at(s, k))
}

fn heeling_arms(s: SoundBasis) -> [u64; 10]
    ensures { result ≡ heeling_arms s.basis }
{
    array::from_fn(|k| heeling_at(s, k))
}

fn differences(righting: [i64; 10], heeling: [u64; 10]) -> [i64; 10]
    requires { Small righting heeling }
    ensures { result ≡ left_overs righting heeling }
{
    array::from_fn(|k| left_over(righting[k], heeling[k]))
}

// DIFF at each of the ten angles.
#[tactic(auto, using(crate::proofs::Bounds::made_small, crate::proofs::Bounds::made_are, crate::proofs::Bounds::made_bounded))]
pub fn diffs_of(s: SoundBasis) -> Diffs
    ensures { result.values ≡ diffs s.basis }
{
    Diffs {
        values: differences(righting_arms(s), heeling_arms(s)),
    }
}
