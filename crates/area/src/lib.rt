// AREA: the area above zero under the straight lines that join the ten DIFFs.
#![tactic(auto)]

ghost use Rattle.std.specs.Prelude.{◌≡◌, ◌+◌, ◌*◌, ◌<◌, ◌≤◌, ◌^◌};
ghost use Rattle.whole.specs.Line.{on_line};
ghost use Rattle.arms.specs.Arms.{plus_at, minus_at};
ghost use Rattle.area.specs.Area.{area_above, ends_above, stretch_area, area};
ghost use Rattle.area.specs.Walk.{EndsFit, EndBounds, part_area};

use arms::Diffs;

// How far the two ends of the first t of h lie above zero, together, at h times their size.
#[tactic(auto, using(whole::proofs::Lines::line_le))]
fn ends_above(h: u64, t: u64, p1: u64, m1: u64, p2: u64, m2: u64) -> u64
    requires { EndsFit h t p1 m1 p2 m2 }
    ensures value { result ≡ ends_above h t p1 m1 p2 m2 }
    ensures upper_bound { result ≤ h * p1 + on_line h t p1 p2 }
{
    let start = (h * p1).saturating_sub(h * m1);
    start + whole::on_line(h, t, p1, p2).saturating_sub(whole::on_line(h, t, m1, m2))
}

// The area above zero under a line over t: the general case is the one that needs a long division.
#[tactic(auto, using(crate::proofs::Stretches::nothing_above, crate::proofs::Stretches::all_above))]
fn area_above(t: u64, s: u64, u: u64, n: u64) -> u64
    requires { (t ≤ 500) × (0 < s) × (s ≤ 500) × (u ≤ 2 ^ 37) × (n ≤ 2 ^ 45) }
    ensures { result ≡ area_above t s u n }
{
    if u == 0 {
        return 0;
    }
    if n == 0 {
        return t * u / (2 * s);
    }
    whole::product_over(t * u, u, 2 * s * (u + n))
}

// The part t of a stretch of width h.
#[tactic(auto, using(whole::proofs::Lines::line_le, crate::proofs::Stretches::part_le))]
fn part_area(h: u64, t: u64, d: i64, e: i64) -> u64
    requires { (t ≤ h) × (0 < h) × (h ≤ 500) × EndBounds d × EndBounds e }
    ensures value { result ≡ part_area h t d e }
    ensures upper_bound { result ≤ 2 ^ 36 }
{
    let p1 = sign::above_zero(d);
    let m1 = sign::below_zero(d);
    let p2 = sign::above_zero(e);
    let m2 = sign::below_zero(e);
    let u = ends_above(h, t, p1, m1, p2, m2);
    let n = ends_above(h, t, m1, p1, m2, p2);
    area_above(t, h, u, n)
}

// The stretch behind the k-th angle, up to UPPER.
#[tactic(auto, using(arms::proofs::Tens::angle_rises, crate::proofs::Stretches::between_le, crate::proofs::Stretches::both_bounds, crate::proofs::Stretches::stretch_none, crate::proofs::Stretches::stretch_part))]
fn stretch_area(ds: Diffs, upper: u64, k: usize) -> u64
    requires { k < 9 }
    ensures value { result ≡ stretch_area (plus_at ds.values) (minus_at ds.values) upper k }
    ensures upper_bound { result ≤ 2 ^ 36 }
{
    let from = arms::angle_at(k);
    if upper <= from {
        return 0;
    }
    let to = arms::angle_at(k + 1);
    if to <= upper {
        return part_area(to - from, to - from, ds.values[k], ds.values[k + 1]);
    }
    part_area(to - from, upper - from, ds.values[k], ds.values[k + 1])
}

// AREA from 0 to UPPER.
pub fn area_to(ds: Diffs, upper: u64) -> u64
    ensures { result ≡ area ds.values upper }
{
    (0..9).map(|k| stretch_area(ds, upper, k)).sum()
}
