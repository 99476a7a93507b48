// Partly filled sections under a deck: the section moment in mm³, from breadth, void and grain in mm.
#![tactic(auto)]

ghost use Rattle.std.specs.Prelude.{◌≡◌, ◌+◌, ◌*◌, ◌/◌, ◌<◌, ◌≤◌, ◌^◌};
ghost use Rattle.whole.specs.Root.{root};
ghost use Rattle.slack.specs.Deck.{uncut_moment, triangle_moment, neither_moment, deck_moment};
ghost use Rattle.slack.specs.Exact.{Crosses};
ghost use Rattle.slack.specs.Walk.{Sizes};

// The slope of 25 degrees, in hundred-thousandths.
const SLOPE_25: u64 = 46631;
// An eighth of 24 times its square.
const THRICE_SQUARE: u64 = 6523350483;
// An eighth of the square of 100,000.
const UNIT_EIGHTH: u64 = 1250000000;

// The line reaches neither deck nor floor.
pub fn uncut_moment(b: u64) -> u64
    requires { b ≤ 65535 }
    ensures { result ≡ uncut_moment b }
{
    (SLOPE_25 * (b * (b * b))).div_ceil(1200000)
}

// The base of a triangle of this area under a line of this slope, in hundred-thousandths, rounded down.
#[tactic(auto, using(whole::proofs::Roots::root_found))]
pub fn base_of(slope: u64, area: u64) -> u64
    requires { (0 < slope) × (area ≤ 2 ^ 40) }
    ensures { result ≡ root (200000 * area / slope) }
{
    (200000 * area / slope).isqrt()
}

// The lesser of void and grain, m deep, lies as a triangle.
#[tactic(auto, using(crate::proofs::Triangles::area_small, crate::proofs::Triangles::lever_above, crate::proofs::Triangles::lever_fits))]
fn triangle_moment(b: u64, m: u64) -> u64
    requires { (b ≤ 65535) × (200000 * m < 46631 * b) }
    ensures { result ≡ triangle_moment b (b * m) }
{
    let area = b * m;
    (area * (3 * b - 2 * base_of(SLOPE_25, area))).div_ceil(6)
}

// Neither lies as a triangle: the whole parts of the two terms, and their rests over one divisor.
#[tactic(auto, using(crate::proofs::Neither::moment_more, crate::proofs::Neither::moment_even))]
fn neither_moment(b: u64, v: u64, g: u64) -> u64
    requires { Crosses b v g × Sizes b v g (v + g) }
    ensures { result ≡ neither_moment b v g (v + g) }
{
    let h = v + g;
    let first = b * b * (v * g);
    let cube = h * h * h;
    let carried = UNIT_EIGHTH * (cube % THRICE_SQUARE);
    let second = UNIT_EIGHTH * (cube / THRICE_SQUARE) + carried / THRICE_SQUARE;
    let wholes = first / (2 * h) - second;
    if 2 * h * (carried % THRICE_SQUARE) < THRICE_SQUARE * (first % (2 * h)) {
        wholes + 1
    } else {
        wholes
    }
}

// The section moment of a section of this breadth, void and grain.
#[tactic(auto, using(crate::proofs::Rows::by_uncut, crate::proofs::Rows::by_triangle, crate::proofs::Rows::by_neither))]
pub fn section_moment(breadth: u16, void: u16, grain: u16) -> u64
    ensures { result ≡ deck_moment breadth void grain }
{
    let b = breadth as u64;
    let v = void as u64;
    let g = grain as u64;
    let m = v.min(g);
    if SLOPE_25 * b <= 200000 * m {
        return uncut_moment(b);
    }
    let h = v + g;
    if 2 * SLOPE_25 * (b * m) <= 100000 * (h * h) {
        return triangle_moment(b, m);
    }
    neither_moment(b, v, g)
}
