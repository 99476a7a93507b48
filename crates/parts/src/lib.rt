// Cells and parts of a hold's form, at the front of what is left of a line.
#![tactic(auto)]

ghost use Rattle.std.specs.Prelude.{◌≡◌, IfSome};
ghost use Rattle.text.specs.Token.{tokens};
ghost use Rattle.text.specs.Front.{TailOf};
ghost use Rattle.items.specs.Carried.{carry};
ghost use Rattle.items.specs.Reads.{read_of};
ghost use Rattle.parts.specs.Shape.{cell_named, cell?, part_named, section?, slack?, split?, body?, part?};
ghost use Rattle.parts.specs.Carried.{carried_cell, carried_part};

use record::{Cell, Mode, Part, Slack};
use text::Read;

// The word of a cell, apart from the sizes behind it, as document 01's shapes have it. A table of words and functions that read on would hand out a
// function pointer, which the gate refuses.
#[derive(Clone, Copy, Debug, PartialEq, Eq)]
pub enum CellWord {
    WingWord,
    HatchWord,
    VoidWord,
}

// The word of a part, apart from what stands behind it, as that of a cell.
#[derive(Clone, Copy, Debug, PartialEq, Eq)]
pub enum PartWord {
    PlainWord,
    SplitWord,
}

// ---- cells

// The words of cells.
const CELLS: [(&[u8], CellWord); 3] = [
    (b"wing", CellWord::WingWord),
    (b"hatch", CellWord::HatchWord),
    (b"void", CellWord::VoidWord),
];

#[tactic(auto, unfolding(items::specs::Grammar::named, items::specs::Reads::found))]
fn cell_named(word: &[u8]) -> Option<CellWord>
    ensures { result ≡ cell_named word.now }
{
    items::named(&CELLS, word)
}

// A cell, by its word.
#[tactic(auto, using(crate::proofs::Records::cell_read))]
fn cell(s: &[u8]) -> Read<'_, Cell>
    ensures read { carry carried_cell (cell? (tokens s.now)) ≡ read_of result }
    ensures tail { IfSome result (λ r. TailOf r.1.now s.now) }
{
    let (word, rest) = items::head(s)?;
    match cell_named(word)? {
        CellWord::WingWord => {
            let ([width, dist, girder, lip], rest) = items::last_sizes::<4>(rest)?;
            let wing = Cell::Wing {
                width,
                dist,
                girder,
                lip,
            };
            Some((wing, rest))
        }
        CellWord::HatchWord => {
            let ([width, opening, lip], rest) = items::last_sizes::<3>(rest)?;
            let hatch = Cell::Hatch {
                width,
                opening,
                lip,
            };
            Some((hatch, rest))
        }
        CellWord::VoidWord => {
            let ([width, depth, lip], rest) = items::last_sizes::<3>(rest)?;
            let void = Cell::Void { width, depth, lip };
            Some((void, rest))
        }
    }
}

// ---- parts

// The words of parts.
const PARTS: [(&[u8], PartWord); 2] = [
    (b"part", PartWord::PlainWord),
    (b"split", PartWord::SplitWord),
];

#[tactic(auto, unfolding(items::specs::Grammar::named, items::specs::Reads::found))]
fn part_named(word: &[u8]) -> Option<PartWord>
    ensures { result ≡ part_named word.now }
{
    items::named(&PARTS, word)
}

// `LENGTH CELL ..)`. The filler of a part has eight fillers of a cell.
fn section(s: &[u8]) -> Read<'_, Part>
    ensures read { carry carried_part (section? (tokens s.now)) ≡ read_of result }
    ensures tail { IfSome result (λ r. TailOf r.1.now s.now) }
{
    let (length, rest) = items::size(s)?;
    let mut part = record::no_part();
    part.length = length;
    let (count, rest) = items::several(rest, &mut part.cells, cell)?;
    part.count = count as u8;
    Some((part, rest))
}

// `LENGTH BREADTH VOID GRAIN)`
#[tactic(auto, unfolding(record::specs::Filler::padded), using(crate::proofs::Records::slack_read))]
fn slack(s: &[u8]) -> Read<'_, Part>
    ensures read { carry carried_part (slack? (tokens s.now)) ≡ read_of result }
    ensures tail { IfSome result (λ r. TailOf r.1.now s.now) }
{
    let ([length, breadth, void, grain], rest) = items::last_sizes::<4>(s)?;
    let part = Part {
        length,
        slack: Slack::Undivided {
            breadth,
            void,
            grain,
        },
        ..record::no_part()
    };
    Some((part, rest))
}

// `LENGTH RUN LEFT RIGHT)`
#[tactic(auto, unfolding(record::specs::Filler::padded), using(crate::proofs::Records::split_read))]
fn split(s: &[u8]) -> Read<'_, Part>
    ensures read { carry carried_part (split? (tokens s.now)) ≡ read_of result }
    ensures tail { IfSome result (λ r. TailOf r.1.now s.now) }
{
    let ([length, run, left, right], rest) = items::last_sizes::<4>(s)?;
    let part = Part {
        length,
        slack: Slack::Split { run, left, right },
        ..record::no_part()
    };
    Some((part, rest))
}

// What stands behind a part's word goes by the mode; among cells there is no board.
fn body(mode: Mode, word: PartWord, s: &[u8]) -> Read<'_, Part>
    ensures read { carry carried_part (body? mode word (tokens s.now)) ≡ read_of result }
    ensures tail { IfSome result (λ r. TailOf r.1.now s.now) }
{
    match (mode, word) {
        (Mode::Trimmed | Mode::Voided, PartWord::PlainWord) => section(s),
        (Mode::Trimmed | Mode::Voided, PartWord::SplitWord) => None,
        (Mode::Partial, PartWord::PlainWord) => slack(s),
        (Mode::Partial, PartWord::SplitWord) => split(s),
    }
}

// A part of a hold of this mode, by its word.
pub fn part(mode: Mode, s: &[u8]) -> Read<'_, Part>
    ensures read { carry carried_part (part? mode (tokens s.now)) ≡ read_of result }
    ensures tail { IfSome result (λ r. TailOf r.1.now s.now) }
{
    let (word, rest) = items::head(s)?;
    body(mode, part_named(word)?, rest)
}
