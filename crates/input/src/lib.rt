// The lines of an input, and what the two limits say. Nothing here reads or writes.
#![tactic(auto)]

ghost use Rattle.std.specs.Prelude.{◌==◌, not, ◌≡◌, ◌++◌, ◌+◌, ◌≤◌, ◌<◌, length, take, drop};
ghost use Rattle.std.specs.List.{prefix_len};
ghost use Rattle.input.specs.Lines.{most_lines, most_bytes, line_length};
ghost use Rattle.input.specs.Limits.{Asked, ToldIs};

use lanes::ByteTest;
use std::simd::prelude::*;

// What a read tells: the input goes on; the line that has begun is its last; no line more.
#[derive(Clone, Copy)]
pub enum Told {
    Goes,
    LastLine,
    NoMore,
}

// How many bytes of a line are kept: one more than a line may have.
const LONGEST_KEPT: usize = 2001;

// ---- lines of a block

// A byte that ends no line.
struct InLine;

impl ByteTest for InLine {
    ghost passes = { λ b. not (b == 10) };

    fn of_one(b: u8) -> bool {
        b != b'\n'
    }

    fn of_eight(v: u8x8) -> u64 {
        lanes::differs(v, b'\n')
    }
}

// How many bytes stand before the first byte 10.
fn bytes_before(s: &[u8]) -> usize
    ensures value { result ≡ prefix_len (λ b. not (b == 10)) s.now }
    ensures upper_bound { result ≤ length s.now }
{
    lanes::front::<InLine>(s)
}

// The place of the next byte 10 from `at` on, or the block's end. Of a place and no slice that is left: `lines` says why.
#[tactic(auto, using(crate::proofs::Cutting::before_newline))]
pub fn line_end(block: &[u8], at: usize) -> usize
    requires { at ≤ length block.now }
    ensures value { result ≡ at + line_length (drop at block.now) }
    ensures upper_bound { result ≤ length block.now }
{
    let (_, s) = block.split_at(at);
    at + bytes_before(s)
}

// ---- a line that has begun

// Keeps of a piece what has room behind the first `used` bytes of the line, 2,001 in all: how many are kept then.
pub fn keep(line: &mut [u8], used: usize, piece: &[u8]) -> usize
    requires { (used ≤ 2001) × (length line.old ≡ 2002) }
    ensures line_after { take result line.new ≡ take 2001 (take used line.old ++ piece.now) }
    ensures upper_bound { result ≤ 2001 }
{
    let n = piece.len().min(LONGEST_KEPT - used);
    line[used..used + n].copy_from_slice(&piece[..n]);
    used + n
}

// ---- the limits

// Document 01's limits of lines and bytes: functions, whose contracts say that they are the paper's, which a `const` cannot.
pub fn most_lines() -> u64
    ensures { result ≡ most_lines }
{
    4000000000
}

pub fn most_bytes() -> u64
    ensures { result ≡ most_bytes }
{
    9000000000000
}

// How many bytes are asked for next, where `left` lines and `more` bytes may still come and `used` bytes of a line are kept: 0 where the service stops. An
// `Option` would leave open what `Some(0)` asks for.
pub fn to_ask(left: u64, used: usize, more: u64) -> usize
    ensures { Asked left used more result }
{
    if left == 0 {
        return 0;
    }
    if 0 < more {
        return more.min(65536) as usize;
    }
    if used == 0 {
        return 0;
    }
    1
}

// What a read of `got` bytes tells.
pub fn tell(used: usize, more: u64, got: usize) -> Told
    requires { 0 < more → got ≤ more }
    ensures { ToldIs used more got result }
{
    if got == 0 {
        if used == 0 {
            return Told::NoMore;
        }
        return Told::LastLine;
    }
    if more == 0 {
        return Told::NoMore;
    }
    Told::Goes
}
