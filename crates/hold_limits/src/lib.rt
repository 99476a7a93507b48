// The limits of a hold, its parts and its cells (code 20).
#![tactic(auto)]

ghost use Rattle.std.specs.Prelude.{◌≡◌, ◌≤◌, length, sum_by};
ghost use Rattle.std.specs.List.{list_all};
ghost use Rattle.whole.specs.Lists.{within};
ghost use Rattle.record.specs.Held.{cell_width};
ghost use Rattle.limits.specs.Limits.{cell_limits, section_limits, undivided_limits, split_limits, size_limits, slack_limits, part_limits, hold_limits};

use record::{Cell, Hold, Mode, Part, Slack};

#[tactic(auto, unfolding(whole::specs::Lists::within, limits::specs::Limits::cell_limits))]
fn cell_limits(cell: Cell) -> bool
    ensures { result ≡ cell_limits cell }
{
    match cell {
        Cell::Wing {
            width,
            dist,
            girder,
            lip,
        } => {
            (1..=40000).contains(&width)
                && (0..=20000).contains(&dist)
                && (0..=3000).contains(&girder)
                && (0..=10000).contains(&lip)
        }
        Cell::Hatch {
            width,
            opening,
            lip,
        } => (1..=40000).contains(&width)
            && (0..=3000).contains(&opening)
            && (0..=10000).contains(&lip),
        Cell::Void { width, depth, lip } => {
            (1..=40000).contains(&width)
                && (0..=5000).contains(&depth)
                && (0..=10000).contains(&lip)
        }
    }
}

// Whether each cell is within its limits.
fn cells_within(cells: &[Cell]) -> bool
    ensures { result ≡ list_all cell_limits cells.now }
{
    cells.iter().all(|c| cell_limits(*c))
}

// The widths of cells together.
fn width_together(cells: &[Cell]) -> u32
    requires { length cells.now ≤ 8 }
    ensures { result ≡ sum_by cell_width cells.now }
{
    cells.iter().map(|cell| cell.width() as u32).sum()
}

// Whether there are cells or parts, and not more than so many.
#[tactic(auto, unfolding(whole::specs::Lists::within))]
fn is_count(most: u8, count: u8) -> bool
    ensures { result ≡ within 1 most count }
{
    (1..=most).contains(&count)
}

// Whether a part's length is within its limits.
#[tactic(auto, unfolding(whole::specs::Lists::within))]
fn is_length(length: u16) -> bool
    ensures { result ≡ within 1 60000 length }
{
    (1..=60000).contains(&length)
}

// A part of a trimmed or voided hold.
#[tactic(auto, unfolding(limits::specs::Limits::section_limits), using(whole::proofs::Lists::list_all_is, whole::proofs::Lists::sum_by_is, whole::proofs::Lists::within_true))]
fn section_limits(p: Part) -> bool
    ensures { result ≡ section_limits p }
{
    let cells = p.own_cells();
    is_count(8, p.count)
        && is_length(p.length)
        && cells_within(cells)
        && width_together(cells) <= 40000
}

// The sizes of a section from side to side.
#[tactic(auto, unfolding(whole::specs::Lists::within))]
fn undivided_limits(breadth: u16, void: u16, grain: u16) -> bool
    ensures { result ≡ undivided_limits breadth void grain }
{
    (1..=40000).contains(&breadth) && (1..=30000).contains(&void) && (1..=30000).contains(&grain)
}

// The sizes beside a board. The breadths are added in 32 bits: 16 bits do not hold every two of them together.
#[tactic(auto, unfolding(whole::specs::Lists::within))]
fn split_limits(length: u16, run: u16, left: u16, right: u16) -> bool
    ensures { result ≡ split_limits length run left right }
{
    (1..=length).contains(&run) && 1 <= left && 1 <= right && left as u32 + right as u32 <= 40000
}

// The sizes of a partly filled part of this length.
fn size_limits(length: u16, slack: Slack) -> bool
    ensures { result ≡ size_limits length slack }
{
    match slack {
        Slack::Undivided {
            breadth,
            void,
            grain,
        } => undivided_limits(breadth, void, grain),
        Slack::Split { run, left, right } => split_limits(length, run, left, right),
    }
}

// A part of a partly filled hold.
#[tactic(auto, unfolding(limits::specs::Limits::slack_limits))]
fn slack_limits(p: Part) -> bool
    ensures { result ≡ slack_limits p }
{
    is_length(p.length) && size_limits(p.length, p.slack)
}

fn part_limits(mode: Mode, p: Part) -> bool
    ensures { result ≡ part_limits mode p }
{
    match mode {
        Mode::Trimmed | Mode::Voided => section_limits(p),
        Mode::Partial => slack_limits(p),
    }
}

// Whether each part is within its limits.
fn parts_within(mode: Mode, parts: &[Part]) -> bool
    ensures { result ≡ list_all (part_limits mode) parts.now }
{
    parts.iter().all(|p| part_limits(mode, *p))
}

#[tactic(auto, unfolding(whole::specs::Lists::within, limits::specs::Limits::hold_limits), using(whole::proofs::Lists::list_all_is))]
pub fn hold_limits(h: &Hold) -> bool
    ensures { result ≡ hold_limits h.now }
{
    let head = h.head;
    is_count(6, head.count)
        && (5000..=40000).contains(&head.factor)
        && parts_within(head.mode, h.own_parts())
}
