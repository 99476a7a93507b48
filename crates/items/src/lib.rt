// Brackets, runs and numbers at the front of what is left of a line, each with what is left behind it.
#![tactic(auto)]

ghost use Rattle.std.specs.Prelude.{◌≡◌, map, ◌≤◌, length, IfSome, List, ◌++◌};
ghost use Rattle.text.specs.Token.{Token, tokens};
ghost use Rattle.text.specs.Front.{TailOf};
ghost use Rattle.items.specs.Grammar.{Parsed, open?, close?, run?, head?, number?, last_numbers?, several?};
ghost use Rattle.items.specs.Carried.{carry, carried};
ghost use Rattle.items.specs.Reads.{is_end, found, passed_of, run_of, read_of, ReadsBy, LeavesTail, Fills};

use text::{Piece, Read};

// An opening bracket. This and `close` are two, one case of a `match` each: one function of the piece would need an `==` of pieces.
pub fn open(s: &[u8]) -> Option<&[u8]>
    ensures read { open? (tokens s.now) ≡ passed_of result }
    ensures tail { IfSome result (λ r. TailOf r.now s.now) }
{
    match text::first_piece(s)? {
        (Piece::Open, rest) => Some(rest),
        _ => None,
    }
}

// A closing bracket.
pub fn close(s: &[u8]) -> Option<&[u8]>
    ensures read { close? (tokens s.now) ≡ passed_of result }
    ensures tail { IfSome result (λ r. TailOf r.now s.now) }
{
    match text::first_piece(s)? {
        (Piece::Close, rest) => Some(rest),
        _ => None,
    }
}

// A run.
pub fn run(s: &[u8]) -> Read<'_, &[u8]>
    ensures read { run? (tokens s.now) ≡ run_of result }
    ensures together { IfSome result (λ r. TailOf (r.0.now ++ r.1.now) s.now) }
    ensures tail { IfSome result (λ r. TailOf r.1.now s.now) }
{
    match text::first_piece(s)? {
        (Piece::Run(word), rest) => Some((word, rest)),
        _ => None,
    }
}

// A form's opening bracket and the run behind it.
pub fn head(s: &[u8]) -> Read<'_, &[u8]>
    ensures read { head? (tokens s.now) ≡ run_of result }
    ensures together { IfSome result (λ r. TailOf (r.0.now ++ r.1.now) s.now) }
    ensures tail { IfSome result (λ r. TailOf r.1.now s.now) }
{
    let rest = open(s)?;
    run(rest)
}

// A number.
pub fn number(s: &[u8]) -> Read<'_, u32>
    ensures read { number? (tokens s.now) ≡ read_of result }
    ensures tail { IfSome result (λ r. TailOf r.1.now s.now) }
{
    let (word, rest) = run(s)?;
    let v = text::number_of(word)?;
    Some((v, rest))
}

// A number above 65,535 is carried as 65,535, which is above every limit of one number too. `u16::try_from(v).unwrap_or(u16::MAX)` is as long and the same.
fn as_field(v: u32) -> u16
    ensures { result ≡ carried v }
{
    v.min(65535) as u16
}

// A number as its field carries it.
pub fn size(s: &[u8]) -> Read<'_, u16>
    ensures read { carry carried (number? (tokens s.now)) ≡ read_of result }
    ensures tail { IfSome result (λ r. TailOf r.1.now s.now) }
{
    let (v, rest) = number(s)?;
    Some((as_field(v), rest))
}

// The last numbers of a form, and its closing bracket.
pub fn last_sizes<const N: usize>(s: &[u8]) -> Read<'_, [u16; N]>
    ensures read { carry (map carried) (last_numbers? N (tokens s.now)) ≡ read_of result }
    ensures tail { IfSome result (λ r. TailOf r.1.now s.now) }
{
    let mut values = [0u16; N];
    let mut rest = s;
    for value in &mut values {
        let (v, behind) = size(rest)?;
        *value = v;
        rest = behind;
    }
    Some((values, close(rest)?))
}

// The last items of a form, at least one and at most as many as there are places, and its closing bracket: how many there are, each in its place.
// A `for` over the places is no plainer: it needs a `return` at a bracket inside, and the same answer once more behind it, where all places are full.
pub fn several<'a, T: Copy, F: Fn(&'a [u8]) -> Read<'a, T>>(
    s: &'a [u8],
    places: &mut [T],
    item: F,
) -> Read<'a, usize>
    requires { F.IsAlwaysCallable item }
    ensures count { IfSome result (λ r. r.0 ≤ length places.old) }
    ensures filled { (item? : List Token → Parsed T) → ReadsBy (F.post item) item? → Fills (several? (length places.old) item? (tokens s.now)) places.old places.new result }
    ensures tail { LeavesTail (F.post item) → IfSome result (λ r. TailOf r.1.now s.now) }
{
    let mut rest = s;
    let mut n = 0;
    while n < places.len() && close(rest).is_none() {
        let (x, behind) = item(rest)?;
        places[n] = x;
        rest = behind;
        n += 1;
    }
    let behind = close(rest)?;
    if n == 0 {
        return None;
    }
    Some((n, behind))
}

// What a word stands for, by a table of words.
pub fn named<T: Copy>(table: &[(&[u8], T)], word: &[u8]) -> Option<T>
    ensures { result ≡ found table.now word.now }
{
    for (name, kind) in table {
        if word == *name {
            return Some(*kind);
        }
    }
    None
}

// Whether no token is left.
#[tactic(auto, unfolding(crate::specs::Reads::is_end))]
pub fn is_end(s: &[u8]) -> bool
    ensures { result ≡ is_end (tokens s.now) }
{
    text::first_piece(s).is_none()
}
