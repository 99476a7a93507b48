// The verdict: DIFF between the ten angles, UPPER, and the first test that fails.
#![tactic(auto)]

ghost use Rattle.std.specs.Prelude.{◌≡◌, ◌≤◌};
ghost use Rattle.stability.specs.Verdict.{heel_limit, stretch_of, diff_at, peak, upper, fails_among, fails_beyond, judged_by, verdict_from, verdict_of};

use arms::{Diffs, SoundBasis};
use record::{Rule, Ship};

// The first test that fails.
#[derive(Clone, Copy, Debug, PartialEq, Eq)]
pub enum Shortfall {
    ShortOfGm,
    ShortAtHeel,
    ShortBeyond,
    ShortOfArea,
}

// GM and DIFF at the heel limit in micrometres, UPPER in hundredths of a degree, AREA in both multiplied.
#[derive(Clone, Copy)]
pub struct Verdict {
    pub judgement: Result<(), Shortfall>,
    pub gm: i64,
    pub diff: i64,
    pub upper: u64,
    pub area: u64,
}

// The greatest heel in hundredths of a degree, the least GM in µm, and the least area in µm times hundredths of a degree.
const GREATEST_HEEL: u64 = 1200;

const LEAST_GM: i64 = 300000;

const LEAST_AREA: u64 = 429718347;

// The stretch in which the angle x lies: it begins at the last of the ten angles below x.
fn stretch_of(x: u64) -> usize
    ensures { result ≡ stretch_of x }
{
    (1..9).take_while(|k| arms::angle_at(*k) < x).count()
}

// DIFF at the angle x, rounded down. That no angle is above 4,000 is said where one comes from: a type of such angles would be opened again at each
// sum and comparison.
#[tactic(auto, unfolding(crate::specs::Verdict::diff_at), using(crate::proofs::Stretch::stretch_is, arms::proofs::Tens::angle_rises, arms::proofs::Tens::width_some, arms::proofs::Tens::width_le))]
fn diff_at(ds: Diffs, x: u64) -> i64
    requires { x ≤ 4000 }
    ensures { result ≡ diff_at ds.values x }
{
    let i = stretch_of(x);
    let from = arms::angle_at(i);
    let width = arms::angle_at(i + 1) - from;
    whole::line_at(width, x - from, ds.values[i], ds.values[i + 1])
}

// The least place at which DIFF is greatest. By a loop over the places: of several greatest `max_by_key` answers the last, so that it had to walk them
// backwards, and to say what it gives of no places.
fn peak_of(ds: Diffs) -> usize
    ensures { result ≡ peak ds.values }
{
    let mut best: usize = 0;
    for i in 1..10 {
        if ds.values[best] < ds.values[i] {
            best = i;
        }
    }
    best
}

// Whether DIFF is below zero at one of the ten angles above the heel limit and not above UPPER. The two angles and the DIFFs are parameters
// here and in `fails_beyond` alone: a struct of them would be made for one call, and taken apart in it.
fn fails_among(heel: u64, upper: u64, ds: Diffs) -> bool
    ensures { result ≡ fails_among heel upper ds.values 10 }
{
    (0..10).any(|k| {
        let a = arms::angle_at(k);
        heel < a && a <= upper && ds.values[k] < 0
    })
}

fn heel_limit(s: Ship) -> u64
    ensures value { result ≡ heel_limit s }
    ensures upper_bound { result ≤ 1200 }
{
    match s.rule {
        Rule::New(edge) => GREATEST_HEEL.min(edge as u64),
        Rule::Old(_) => GREATEST_HEEL,
    }
}

// Whether one of the angles that code 42 names fails.
fn fails_beyond(heel: u64, upper: u64, ds: Diffs) -> bool
    requires { upper ≤ 4000 }
    ensures { result ≡ fails_beyond heel upper ds.values }
{
    fails_among(heel, upper, ds) || heel < upper && diff_at(ds, upper) < 0
}

// The first test that fails.
#[tactic(auto, unfolding(crate::specs::Verdict::judged_by))]
fn judgement_of(gm: i64, diff: i64, beyond: bool, area: u64) -> Result<(), Shortfall>
    ensures { result ≡ judged_by gm diff beyond area }
{
    if gm < LEAST_GM {
        return Err(Shortfall::ShortOfGm);
    }
    if diff < 0 {
        return Err(Shortfall::ShortAtHeel);
    }
    if beyond {
        return Err(Shortfall::ShortBeyond);
    }
    if area < LEAST_AREA {
        return Err(Shortfall::ShortOfArea);
    }
    Ok(())
}

// The verdict on ten DIFFs.
#[tactic(auto, using(crate::proofs::Peaks::peak_is, arms::proofs::Tens::angle_le))]
fn verdict_from(heel: u64, flood: u64, gm: i64, ds: Diffs) -> Verdict
    requires { heel ≤ 1200 }
    ensures { result ≡ verdict_from heel (upper flood ds.values) gm ds.values }
{
    let upper = flood.min(arms::angle_at(peak_of(ds)));
    let diff = diff_at(ds, heel);
    let area = area::area_to(ds, upper);
    let judgement = judgement_of(gm, diff, fails_beyond(heel, upper, ds), area);
    Verdict {
        judgement,
        gm,
        diff,
        upper,
        area,
    }
}

// The verdict on a ship, from two columns around D, a load and a weight moment within their limits.
#[tactic(auto, unfolding(crate::specs::Verdict::verdict_of))]
pub fn judge(s: Ship, b: SoundBasis) -> Verdict
    ensures { result ≡ verdict_of s b.basis }
{
    let flood = s.flood as u64;
    verdict_from(heel_limit(s), flood, arms::gm_of(b), arms::diffs_of(b))
}
