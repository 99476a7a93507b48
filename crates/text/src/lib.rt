// A line's bytes, brackets, runs and numbers.
#![tactic(auto)]

ghost use Rattle.std.specs.Prelude.{◌≡◌, ◌<◌, ◌≤◌, length, IfSome};
ghost use Rattle.lanes.specs.Flags.{flags};
ghost use Rattle.text.specs.Token.{is_digit, in_run, number_of, tokens, run_length};
ghost use Rattle.std.specs.Iterator.{YieldsFirstBy, item_count};
ghost use Rattle.text.specs.Front.{digits_from, said, led_by, left_of, TailOf, PlacedAt};

use lanes::ByteTest;
use std::simd::prelude::*;

// The greatest number.
const GREATEST_NUMBER: u64 = 999999999;

// What stands in front of other digits in no number.
const ZERO: u8 = b'0';

// A bracket, or a run of digits and letters: the very bytes of the line.
#[derive(Clone, Copy)]
pub enum Piece<'a> {
    Open,
    Close,
    Run(&'a [u8]),
}

// What was read at the front of a text, and what is left behind it.
pub type Read<'a, T> = Option<(T, &'a [u8])>;

#[tactic(auto, unfolding(whole::specs::Lists::within))]
pub fn is_digit(b: u8) -> bool
    ensures { result ≡ is_digit b }
{
    b.is_ascii_digit()
}

#[tactic(auto, unfolding(whole::specs::Lists::within))]
pub fn is_in_run(b: u8) -> bool
    ensures { result ≡ in_run b }
{
    b.is_ascii_lowercase() || is_digit(b)
}

// Which of eight bytes are bytes of a run.
#[inline(always)]
#[tactic(auto, using(lanes::proofs::Flags::either_flags))]
pub fn lanes_in_run(v: u8x8) -> u64
    ensures { result ≡ flags in_run v }
{
    lanes::inside(v, b'a', b'z') | lanes::inside(v, b'0', b'9')
}

// A byte of a run.
struct OfRun;

impl ByteTest for OfRun {
    ghost passes = { in_run };

    fn of_one(b: u8) -> bool {
        is_in_run(b)
    }

    fn of_eight(v: u8x8) -> u64 {
        lanes_in_run(v)
    }
}

// How many bytes the run in front has.
fn run_length(s: &[u8]) -> usize
    ensures value { result ≡ run_length s.now }
    ensures upper_bound { result ≤ length s.now }
{
    lanes::front::<OfRun>(s)
}

// The first bracket or run of a text, and what is left behind it. Inlined always: its answer is six words, which a call hands back in memory.
#[inline(always)]
pub fn first_piece<'a>(s: &'a [u8]) -> Read<'a, Piece<'a>>
    ensures read { tokens s.now ≡ led_by result }
    ensures shorter { IfSome result (λ r. length r.1.now < length s.now) }
    ensures tail { IfSome result (λ r. TailOf r.1.now s.now) }
    ensures place { PlacedAt s.now result }
{
    let mut left = s;
    while let Some((b, behind)) = left.split_first() {
        if is_in_run(*b) {
            let (run, rest) = left.split_at(run_length(left));
            return Some((Piece::Run(run), rest));
        }
        if *b == b'(' {
            return Some((Piece::Open, behind));
        }
        if *b == b')' {
            return Some((Piece::Close, behind));
        }
        left = behind;
    }
    None
}

// The brackets and runs of a text that are left, in their order.
#[derive(Drop)]
pub struct Pieces<'a>(&'a [u8]);

impl<'a> Iterator for Pieces<'a> {
    type Item = Piece<'a>;

    ghost next_gives = { YieldsFirstBy said left_of };

    ghost remaining = { item_count left_of };

    fn next(&mut self) -> Option<Piece<'a>> {
        let (piece, rest) = first_piece(self.0)?;
        self.0 = rest;
        Some(piece)
    }
}

pub fn pieces_of(s: &[u8]) -> Pieces<'_>
    ensures { left_of result ≡ tokens s.now }
{
    Pieces(s)
}

// The number that digits say, a zero in front or not. No `parse::<u32>()`: it wants a `str`, takes a `+` in front, and knows another greatest
// number: three tests more.
fn digits_of(run: &[u8]) -> Option<u32>
    ensures { result ≡ digits_from 0 run.now }
{
    let mut v: u64 = 0;
    for b in run {
        if !is_digit(*b) {
            return None;
        }
        let w = 10 * v + (*b - b'0') as u64;
        if GREATEST_NUMBER < w {
            return None;
        }
        v = w;
    }
    Some(v as u32)
}

// The number that a run says.
pub fn number_of(run: &[u8]) -> Option<u32>
    ensures { result ≡ number_of run.now }
{
    let (first, behind) = run.split_first()?;
    if *first == ZERO && !behind.is_empty() {
        return None;
    }
    digits_of(run)
}
