// A partly filled part with a longitudinal board along some of its length: section moment × length, in mm⁴.
#![tactic(auto)]

ghost use Rattle.std.specs.Prelude.{◌≡◌, ◌+◌, ◌≤◌};
ghost use Rattle.boards.specs.Split.{deduction, effective_length, beside_board, two_stretches, split_volume};

// Two-sevenths of the greater breadth, rounded up.
fn deduction_of(left: u16, right: u16) -> u64
    ensures { result ≡ deduction left right }
{
    (2 * left.max(right) as u64).div_ceil(7)
}

// The length over which the board is effective.
fn effective_length(run: u16, left: u16, right: u16) -> u64
    ensures { result ≡ effective_length run left right }
{
    (run as u64).saturating_sub(deduction_of(left, right))
}

// The section moment where the two breadths shift separately.
#[tactic(auto, using(crate::proofs::Moments::uncut_small))]
fn beside_board(left: u16, right: u16) -> u64
    ensures { result ≡ beside_board left right }
{
    slack::uncut_moment(left as u64) + slack::uncut_moment(right as u64)
}

// The two breadths over the length e, both as one over the rest.
#[tactic(auto, using(crate::proofs::Moments::two_le, crate::proofs::Moments::one_le))]
fn two_stretches(length: u16, e: u64, left: u16, right: u16) -> u64
    requires { (e ≤ length) × (left + right ≤ 40000) }
    ensures { result ≡ two_stretches length e left right }
{
    let one = slack::uncut_moment(left as u64 + right as u64);
    beside_board(left, right) * e + one * (length as u64 - e)
}

// A part of this length beside a board of this run.
#[tactic(auto, unfolding(crate::specs::Split::split_volume))]
pub fn split_volume(length: u16, run: u16, left: u16, right: u16) -> u64
    requires { (run ≤ length) × (left + right ≤ 40000) }
    ensures { result ≡ split_volume length run left right }
{
    two_stretches(length, effective_length(run, left, right), left, right)
}
