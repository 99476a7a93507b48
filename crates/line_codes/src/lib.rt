// The tests of a whole line: codes 10 to 13.
#![tactic(auto)]

ghost use Rattle.std.specs.Prelude.{◌≡◌, true, cond, ◌-◌, leb, Some, None};
ghost use Rattle.std.specs.List.{list_all};
ghost use Rattle.whole.specs.Lists.{all};
ghost use Rattle.text.specs.Token.{allowed, tokens};
ghost use Rattle.text.specs.Front.{said};
ghost use Rattle.line_codes.specs.declared.Fault.TheVariants.{BadByte, BadNumber};
ghost use Rattle.line_codes.specs.declared.Part.TheVariants.{Inside, Behind};
ghost use Rattle.line_codes.specs.Line.{is_behind, deepest, one_form, number_if_digit, sound_token, tested, reading_of, fault_code};
ghost use Rattle.line_codes.specs.Alike.{AllowedLine};
ghost use Rattle.line_codes.specs.Parts.{stand_of, PartIs, bytes_tested};

use lanes::ByteTest;
use std::simd::prelude::*;
use text::Piece;

// How long a line may be, in bytes; how deep its form may be nested, and behind the word `show`.
const LONGEST: usize = 2000;

const DEEPEST: usize = 4;

const DEEPEST_IN_SHOW: usize = 5;

const SHOW: &[u8] = b"show";

// Why a line is turned down: a test of the whole line, in their order, or that it is none of the shapes.
#[derive(Clone, Copy, Debug, PartialEq, Eq)]
pub enum Fault {
    TooLong,
    BadByte,
    NotOneForm,
    BadNumber,
    NoShape,
}

// Which part of a line a place is in: before its form, inside it with this many brackets open, behind it.
#[derive(Clone, Copy)]
enum Part {
    Before,
    Inside(usize),
    Behind,
}

fn is_allowed(b: u8) -> bool
    ensures { result ≡ allowed b }
{
    text::is_in_run(b) || b == b' ' || b == b'(' || b == b')'
}

// A byte that may stand in a line.
struct MayStand;

impl ByteTest for MayStand {
    ghost passes = { allowed };

    fn of_one(b: u8) -> bool {
        is_allowed(b)
    }

    #[tactic(auto, using(lanes::proofs::Flags::either_four))]
    fn of_eight(v: u8x8) -> u64 {
        text::lanes_in_run(v) | lanes::same(v, b' ') | lanes::same(v, b'(') | lanes::same(v, b')')
    }
}

// 11: every byte may stand in a line.
fn only_allowed(s: &[u8]) -> Result<(), Fault>
    ensures { result ≡ tested BadByte (list_all allowed s.now) }
{
    if !lanes::all::<MayStand>(s) {
        return Err(Fault::BadByte);
    }
    Ok(())
}

// How deep a line's form may be nested: five where its first word is `show`, else four.
fn deepest(s: &[u8]) -> usize
    ensures { result ≡ deepest (tokens s.now) }
{
    let Some((Piece::Open, form)) = text::first_piece(s) else {
        return DEEPEST;
    };
    let Some((Piece::Run(word), _)) = text::first_piece(form) else {
        return DEEPEST;
    };
    if word == SHOW {
        return DEEPEST_IN_SHOW;
    }
    DEEPEST
}

// The part behind a closing bracket, where `depth` brackets were open before it.
fn out_of(depth: usize) -> Part
    ensures { result ≡ cond (leb depth 1) Behind (Inside (depth - 1)) }
{
    if depth <= 1 {
        return Part::Behind;
    }
    Part::Inside(depth - 1)
}

// The part behind a bracket or a run, where at most `most` brackets may be open; none where the line is not one form.
fn behind(most: usize, part: Part, piece: Piece<'_>) -> Option<Part>
    ensures { PartIs most part (said piece.entry) result }
{
    match (part, piece) {
        (Part::Before, Piece::Open) => Some(Part::Inside(1)),
        (Part::Before, _) => None,
        (Part::Inside(depth), Piece::Open) => {
            if most <= depth {
                return None;
            }
            Some(Part::Inside(depth + 1))
        }
        (Part::Inside(depth), Piece::Close) => Some(out_of(depth)),
        (Part::Inside(depth), Piece::Run(_)) => Some(Part::Inside(depth)),
        (Part::Behind, _) => None,
    }
}

// Whether a line that ends in this part is one closed form.
fn is_behind(part: Part) -> bool
    ensures { result ≡ is_behind (stand_of part) }
{
    matches!(part, Part::Behind)
}

// 13: whether a run that starts with a digit is a number.
fn is_number_if_digit(run: &[u8]) -> bool
    ensures { result ≡ number_if_digit run.now }
{
    let Some((first, _)) = run.split_first() else {
        return true;
    };
    !text::is_digit(*first) || text::number_of(run).is_some()
}

// The same of a bracket or a run.
fn is_sound(piece: Piece<'_>) -> bool
    ensures { result ≡ sound_token (said piece.entry) }
{
    match piece {
        Piece::Run(run) => is_number_if_digit(run),
        _ => true,
    }
}

// One walk along a line of allowed bytes for both 12 and 13: none where it is not one closed form, no deeper than its first word lets; else whether every
// run that starts with a digit is a number.
fn walked(s: &[u8]) -> Option<bool>
    requires { all allowed s.now ≡ true }
    ensures { result ≡ cond (one_form (deepest (tokens s.now)) s.now) (Some (all sound_token (tokens s.now))) None }
{
    let most = deepest(s);
    let mut part = Part::Before;
    let mut sound = true;
    for piece in text::pieces_of(s) {
        part = behind(most, part, piece)?;
        sound &= is_sound(piece);
    }
    if !is_behind(part) {
        return None;
    }
    Some(sound)
}

// 13: every run that starts with a digit is a number.
fn all_sound(sound: bool) -> Result<(), Fault>
    ensures { result ≡ tested BadNumber sound }
{
    if !sound {
        return Err(Fault::BadNumber);
    }
    Ok(())
}

// The tests of a line's bytes, 10 and 11: the first that it fails.
pub fn test_bytes(line: &[u8]) -> Result<(), Fault>
    ensures { result ≡ bytes_tested line.now }
{
    if LONGEST < line.len() {
        return Err(Fault::TooLong);
    }
    only_allowed(line)
}

// The tests of the form, 12 and 13, over the entire line: the first that a line fails whose bytes pass theirs.
pub fn test_form(line: &[u8]) -> Result<(), Fault>
    requires { AllowedLine line.now }
    ensures { result ≡ reading_of line.now }
{
    let Some(sound) = walked(line) else {
        return Err(Fault::NotOneForm);
    };
    all_sound(sound)
}

// The paper's code for each fault: a table by its name, and no `From`, since no `?` would apply it.
pub fn fault_code(fault: Fault) -> u8
    ensures { result ≡ fault_code fault }
{
    match fault {
        Fault::TooLong => 10,
        Fault::BadByte => 11,
        Fault::NotOneForm => 12,
        Fault::BadNumber => 13,
        Fault::NoShape => 14,
    }
}
