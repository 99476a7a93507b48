// How many bytes in front of a text pass a test, and whether all do, found eight at a time.
#![tactic(auto)]

ghost use Rattle.std.specs.Prelude.{◌≡◌, not, leb, eqb, Bool, ℕ, ◌*◌, ◌/◌, ◌≤◌, List, length, take};
ghost use Rattle.std.specs.Int.{w64, trailing_ones};
ghost use Rattle.std.specs.List.{list_all, prefix_len};
ghost use Rattle.whole.specs.Lists.{within};
ghost use Rattle.lanes.specs.Flags.{flags};

use std::simd::prelude::*;

// Which lanes hold `low` or more.
#[inline(always)]
fn at_least(v: u8x8, low: u8) -> u64
    ensures { result ≡ flags (λ b. leb low b) v }
{
    v.simd_ge(u8x8::splat(low)).to_bitmask()
}

// Which lanes hold `high` or less.
#[inline(always)]
fn at_most(v: u8x8, high: u8) -> u64
    ensures { result ≡ flags (λ b. leb b high) v }
{
    v.simd_le(u8x8::splat(high)).to_bitmask()
}

// Which lanes hold a byte from `low` to `high`.
#[inline(always)]
pub fn inside(v: u8x8, low: u8, high: u8) -> u64
    ensures { result ≡ flags (within low high) v }
{
    at_least(v, low) & at_most(v, high)
}

// Which lanes hold this byte.
#[inline(always)]
pub fn same(v: u8x8, byte: u8) -> u64
    ensures { result ≡ flags (λ b. eqb b byte) v }
{
    v.simd_eq(u8x8::splat(byte)).to_bitmask()
}

// Which lanes hold another byte.
#[inline(always)]
pub fn differs(v: u8x8, byte: u8) -> u64
    ensures { result ≡ flags (λ b. not (eqb b byte)) v }
{
    v.simd_ne(u8x8::splat(byte)).to_bitmask()
}

// How many lanes in front are flagged.
#[inline(always)]
fn in_front(m: u64) -> usize
    ensures value { result ≡ trailing_ones w64 m }
    ensures counted { (v : List ℕ) (f : ℕ → Bool) → length v ≡ 8 → m ≡ flags f v → result ≡ prefix_len f v }
{
    m.trailing_ones() as usize
}

// A test of a byte, and of eight at once.
pub trait ByteTest {
    ghost passes: { ℕ → Bool };

    fn of_one(b: u8) -> bool
        ensures { result ≡ passes b };

    fn of_eight(v: u8x8) -> u64
        ensures { result ≡ flags passes v };
}

// How many bytes in front pass, byte by byte: of fewer than eight.
fn one_by_one<T: ByteTest>(s: &[u8]) -> usize
    ensures value { result ≡ prefix_len T.passes s.now }
    ensures upper_bound { result ≤ length s.now }
{
    s.iter().take_while(|b| T::of_one(**b)).count()
}

// How many bytes in front pass.
pub fn front<T: ByteTest>(s: &[u8]) -> usize
    ensures value { result ≡ prefix_len T.passes s.now }
    ensures upper_bound { result ≤ length s.now }
{
    let mut n = 0;
    let mut left = s;
    while let Some((eight, behind)) = left.split_first_chunk::<8>() {
        let k = in_front(T::of_eight(u8x8::from_array(*eight)));
        if k < 8 {
            return n + k;
        }
        n += 8;
        left = behind;
    }
    n + one_by_one::<T>(left)
}

// Whether all of eight bytes pass.
fn all_eight<T: ByteTest>(eight: &[u8; 8]) -> bool
    ensures { result ≡ list_all T.passes eight.now }
{
    in_front(T::of_eight(u8x8::from_array(*eight))) == 8
}

// Whether all bytes pass but those behind the last eight that begin at a multiple of eight.
fn all_eights<T: ByteTest>(s: &[u8]) -> bool
    ensures { result ≡ list_all T.passes (take (8 * (length s.now / 8)) s.now) }
{
    let mut left = s;
    while let Some((eight, behind)) = left.split_first_chunk::<8>() {
        if !all_eight::<T>(eight) {
            return false;
        }
        left = behind;
    }
    true
}

// Whether every byte passes. Those behind the last eight that begin at a multiple of eight are looked at with the bytes in front of them.
pub fn all<T: ByteTest>(s: &[u8]) -> bool
    ensures { result ≡ list_all T.passes s.now }
{
    let Some(last) = s.last_chunk::<8>() else {
        return one_by_one::<T>(s) == s.len();
    };
    all_eights::<T>(s) && all_eight::<T>(last)
}
