// Heeling moments of shifted grain: section, part, hold and weight moment.
#![tactic(auto)]

ghost use Rattle.std.specs.Prelude.{◌≡◌, true, length, ◌+◌, ◌/◌, ◌<◌, ◌≤◌, ◌^◌};
ghost use Rattle.whole.specs.Lists.{all};
ghost use Rattle.record.specs.Held.{cells_of};
ghost use Rattle.limits.specs.Limits.{section_limits, slack_limits, part_limits, hold_limits};
ghost use Rattle.grain.specs.Section.{kept, first_moment};
ghost use Rattle.grain.specs.Walk.{SumsFit, with_kept, inner_cell, last_cell, last_answer, section_answer, section_volume_answer, part_volume_answer, part_answer, parts_answer};
ghost use Rattle.grain.specs.Slack.{slack_volume};
ghost use Rattle.grain.specs.Within.{SectionWithin};
ghost use Rattle.grain.specs.Sum.{percentage, weighed_of};

use cells::{CellSizes, SLOPE_15};
use record::{Cell, Hold, Mode, Part, Slack};

// Sums along a section up to x, the low boundary of the next cell: the excess so far, the kept areas' moment about the low
// end, their first moments, and twice the old areas' moment.
#[derive(Clone, Copy)]
pub struct Sums {
    pub x: u64,
    pub excess: u64,
    pub high: u64,
    pub first: u64,
    pub old: u64,
}

// Why a hold record has no weight moment: it is outside its limits, or a void does not fit.
#[derive(Clone, Copy, Debug, PartialEq, Eq)]
pub enum NotWeighed {
    Limits,
    NoFit,
}

// The first moment of an area kept in a cell of width w, from its high boundary, rounded down: what is taken away is never too much, so that
// the moment left is never too small.
#[tactic(auto, using(crate::proofs::Sections::base_small, crate::proofs::Sections::first_triangle, crate::proofs::Sections::first_trapezium, crate::proofs::Sections::trapezium_taken))]
fn first_moment(w: u64, area: u64) -> u64
    requires { (w ≤ 40000) × (area ≤ 200000000) }
    ensures value { result ≡ first_moment (kept w area) }
    ensures upper_bound { result < 2 ^ 43 }
{
    if 200000 * area <= SLOPE_15 * (w * w) {
        area * slack::base_of(SLOPE_15, area) / 3
    } else {
        (600000 * (area * w) - SLOPE_15 * (w * (w * w))) / 1200000
    }
}

// The sums with a cell that keeps the area `keeps` and leaves the excess. This and the next two require that the sums leave room for the cell: a
// fact of the two values together, which no field of either could hold.
#[tactic(auto, unfolding(crate::specs::Walk::with_kept))]
fn with_kept(s: Sums, z: CellSizes, keeps: u64, excess: u64) -> Sums
    requires { SumsFit s z × (keeps ≤ 200000000) }
    ensures { result ≡ with_kept s z keeps excess }
{
    let x = s.x + z.width;
    Sums {
        x,
        excess,
        high: s.high + keeps * x,
        first: s.first + first_moment(z.width, keeps),
        old: s.old + z.area * (2 * s.x + z.width),
    }
}

// A cell that is not the last keeps what it can hold, and leaves the rest.
fn inner_cell(s: Sums, z: CellSizes) -> Sums
    requires { SumsFit s z }
    ensures { result ≡ inner_cell s z }
{
    let keeps = z.area.min(z.most);
    let excess = s.excess + z.area.saturating_sub(z.most);
    with_kept(s, z, keeps, excess)
}

// The last cell takes the excess of all: the section moment, or that its void does not fit.
#[tactic(auto, unfolding(crate::specs::Walk::last_answer))]
fn last_cell(s: Sums, z: CellSizes) -> Option<u64>
    requires { SumsFit s z × ((last_cell s z).first + (last_cell s z).old / 2 ≤ (last_cell s z).high) }
    ensures { result ≡ last_answer s z }
{
    let keeps = z.area + s.excess;
    if z.most < keeps {
        return None;
    }
    let t = with_kept(s, z, keeps, 0);
    Some(t.high - t.first - t.old / 2)
}

// The section moment of the cells of a section, or that its void does not fit.
fn section(cells: &[Cell]) -> Option<u64>
    requires { SectionWithin cells.now × (length cells.now ≤ 8) }
    ensures { result ≡ section_answer cells.now }
{
    let last = cells.len() - 1;
    let mut s = Sums {
        x: 0,
        excess: 0,
        high: 0,
        first: 0,
        old: 0,
    };
    for cell in &cells[..last] {
        s = inner_cell(s, cells::sizes_of(*cell));
    }
    last_cell(s, cells::sizes_of(cells[last]))
}

// A partly filled part, in mm⁴: section moment × length, or beside a board the sum over its two stretches.
#[tactic(auto, unfolding(crate::specs::Slack::slack_volume), using(crate::proofs::Weights::deck_fits, crate::proofs::Weights::board_fits))]
fn slack_volume(p: Part) -> u64
    requires { slack_limits p ≡ true }
    ensures { result ≡ slack_volume p }
{
    match p.slack {
        Slack::Undivided {
            breadth,
            void,
            grain,
        } => slack::section_moment(breadth, void, grain) * p.length as u64,
        Slack::Split { run, left, right } => boards::split_volume(p.length, run, left, right),
    }
}

// Section moment × length of a part of cells, in mm⁴, or that a void does not fit.
#[tactic(auto, unfolding(crate::specs::Walk::section_volume_answer, crate::specs::Walk::section_answer), using(crate::proofs::Walks::part_section_within, crate::proofs::Walks::few_cells, crate::proofs::Weights::cells_fit))]
fn section_volume(p: Part) -> Option<u64>
    requires { section_limits p ≡ true }
    ensures { result ≡ section_volume_answer p }
{
    let moment = section(p.own_cells())?;
    Some(moment * p.length as u64)
}

// The same of a part, by the hold's mode.
#[tactic(auto, unfolding(crate::specs::Walk::part_volume_answer, crate::specs::Walk::section_volume_answer))]
fn part_volume(mode: Mode, p: Part) -> Option<u64>
    requires { part_limits mode p ≡ true }
    ensures { result ≡ part_volume_answer mode p }
{
    match mode {
        Mode::Trimmed | Mode::Voided => section_volume(p),
        Mode::Partial => Some(slack_volume(p)),
    }
}

// A part, in thousandths of a metre to the fourth power.
#[tactic(auto, unfolding(crate::specs::Walk::part_answer, crate::specs::Walk::part_volume_answer, crate::specs::Sum::part_moment))]
fn part_moment(mode: Mode, p: Part) -> Option<u64>
    requires { part_limits mode p ≡ true }
    ensures { result ≡ part_answer mode p }
{
    let volume = part_volume(mode, p)?;
    Some(volume.div_ceil(1000000000))
}

// The parts of a hold, added up: by a loop. Of a sum of `Option`s it did not prove that each part that its closure takes is within its limits.
fn parts_moment(mode: Mode, parts: &[Part]) -> Option<u64>
    requires { (all (part_limits mode) parts.now ≡ true) × (length parts.now ≤ 6) }
    ensures { result ≡ parts_answer mode parts.now }
{
    let mut sum: u64 = 0;
    for part in parts {
        sum += part_moment(mode, *part)?;
    }
    Some(sum)
}

fn percentage_of(mode: Mode) -> u64
    ensures value { result ≡ percentage mode }
    ensures upper_bound { result ≤ 112 }
{
    match mode {
        Mode::Trimmed => 100,
        Mode::Voided => 106,
        Mode::Partial => 112,
    }
}

// The weight moment of a hold record as it stands, in kg·m.
#[tactic(auto, unfolding(crate::specs::Sum::weighed_of, crate::specs::Sum::weight_moment, crate::specs::Sum::hold_moment, crate::specs::Walk::parts_answer, crate::specs::Sum::hold_fits), using(crate::proofs::Weights::parts_within, crate::proofs::Weights::few_parts, crate::proofs::Weights::hold_within, crate::proofs::Weights::parts_le, whole::proofs::Dividing::div_ceil_is))]
pub fn weigh(h: &Hold) -> Result<u64, NotWeighed>
    ensures { result ≡ weighed_of h.now }
{
    if !hold_limits::hold_limits(h) {
        return Err(NotWeighed::Limits);
    }
    let sum = parts_moment(h.head.mode, h.own_parts()).ok_or(NotWeighed::NoFit)?;
    let moment = (sum * percentage_of(h.head.mode)).div_ceil(100);
    Ok((10000 * moment).div_ceil(h.head.factor as u64))
}
