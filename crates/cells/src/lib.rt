// The cells of a section: void depth, void area, and the most that a cell can hold.
#![tactic(auto)]

ghost use Rattle.std.specs.Prelude.{◌≡◌, ◌<◌, ◌^◌, max};
ghost use Rattle.whole.specs.Divide.{ceil_div};
ghost use Rattle.cells.specs.Depth.{standard_depth, wing_depth, cell_depth};
ghost use Rattle.cells.specs.Sizes.{most_held, sizes_of};

use record::Cell;

// A cell's width, void area, and the most that it can hold.
#[derive(Clone, Copy)]
pub struct CellSizes {
    pub width: u64,
    pub area: u64,
    pub most: u64,
}

// The slope of 15 degrees, in hundred-thousandths.
pub const SLOPE_15: u64 = 26795;

// Table B 1-1: the standard depth in mm, every 500 mm of distance from 500 to 8,000.
const DEPTHS: [u64; 16] = [
    570, 530, 500, 480, 450, 440, 430, 430, 430, 430, 450, 470, 490, 520, 550, 590,
];

// 500 times the standard depth at the distance x.
#[tactic(auto, using(crate::proofs::Depths::below_first, crate::proofs::Depths::above_last, crate::proofs::Depths::between, crate::proofs::Depths::between_le))]
fn standard_depth(dist: u16) -> u64
    ensures value { result ≡ standard_depth dist }
    ensures upper_bound { result < 2 ^ 22 }
{
    let x = dist as u64;
    if x < 500 {
        return 500 * 570;
    }
    if 8000 <= x {
        return 500 * 590 + 40 * (x - 8000);
    }
    let i = (x / 500) as usize;
    let past = x % 500;
    DEPTHS[i - 1] * (500 - past) + DEPTHS[i] * past
}

// A wing's depth in tenths of a mm, rounded up once.
#[tactic(auto, unfolding(crate::specs::Depth::wing_depth))]
fn wing_depth(dist: u16, girder: u16) -> u64
    ensures value { result ≡ wing_depth dist girder }
    ensures upper_bound { result < 2 ^ 20 }
{
    let raised = (standard_depth(dist) + 375 * girder as u64).saturating_sub(375 * 600);
    raised.max(500 * 100).div_ceil(50)
}

// A cell's depth in tenths of a mm.
#[tactic(auto, unfolding(crate::specs::Depth::cell_depth))]
fn depth_of(cell: Cell) -> u64
    ensures value { result ≡ cell_depth cell }
    ensures upper_bound { result < 2 ^ 20 }
{
    match cell {
        Cell::Wing { dist, girder, .. } => wing_depth(dist, girder),
        Cell::Hatch { opening, .. } => 10 * (opening as u64 + 150),
        Cell::Void { depth, .. } => 10 * depth as u64,
    }
}

// The most that a cell of width w can hold against a lip g.
#[tactic(auto, using(crate::proofs::Sizes::most_triangle, crate::proofs::Sizes::most_trapezium, crate::proofs::Sizes::most_taken))]
fn most_held(width: u16, lip: u16) -> u64
    ensures { result ≡ most_held width lip }
{
    let w = width as u64;
    let g = lip as u64;
    if 100000 * g <= SLOPE_15 * w {
        100000 * (g * g) / (2 * SLOPE_15)
    } else {
        (200000 * (w * g) - SLOPE_15 * (w * w)) / 200000
    }
}

// The area is rounded up once, from tenths of a mm² to whole mm²: never less void than there is.
#[tactic(auto, unfolding(crate::specs::Depth::cell_area))]
pub fn sizes_of(cell: Cell) -> CellSizes
    ensures { result ≡ sizes_of cell }
{
    let width = cell.width() as u64;
    CellSizes {
        width,
        area: (width * depth_of(cell)).div_ceil(10),
        most: most_held(cell.width(), cell.lip()),
    }
}
