// A line in its one spelling: single spaces between items, and nowhere else.
#![tactic(auto)]

ghost use Rattle.std.specs.Prelude.{◌≡◌, ◌++◌, ◌+◌, ◌≤◌, length};
ghost use Rattle.text.specs.Token.{tokens};
ghost use Rattle.reply.specs.Written.{over, into};
ghost use Rattle.text.specs.Front.{said};
ghost use Rattle.spelling.specs.Spelling.{ends_item, space_if, spell};
ghost use Rattle.spelling.specs.Walk.{piece};

use text::Piece;

// A space where it is asked for, and a text, behind the `at` bytes that are written already (see `reply::append`).
fn add(out: &mut [u8], at: usize, apart: bool, w: &[u8]) -> usize
    requires { at + length (space_if apart ++ w.now) ≤ length out.old }
    ensures value { result ≡ at + length (space_if apart ++ w.now) }
    ensures out_after { out.new ≡ into at (space_if apart ++ w.now) out.old }
{
    if apart {
        let a = reply::append(out, at, b" ");
        return reply::append(out, a, w);
    }
    reply::append(out, at, w)
}

// A bracket or a run, likewise.
fn add_piece(out: &mut [u8], at: usize, ended: bool, p: Piece<'_>) -> usize
    requires { at + length (piece ended (said p)) ≤ length out.old }
    ensures value { result ≡ at + length (piece ended (said p.entry)) }
    ensures out_after { out.new ≡ into at (piece ended (said p.entry)) out.old }
{
    match p {
        Piece::Open => add(out, at, ended, b"("),
        Piece::Close => add(out, at, false, b")"),
        Piece::Run(run) => add(out, at, ended, run),
    }
}

// Whether an item ends with it.
fn ends_item(p: Piece<'_>) -> bool
    ensures { result ≡ ends_item (said p.entry) }
{
    match p {
        Piece::Open => false,
        Piece::Close | Piece::Run(_) => true,
    }
}

// The tokens of a line in the one spelling, over the front of a buffer: token by token, with the space in front of each.
pub fn spell(s: &[u8], out: &mut [u8]) -> usize
    requires { length (spell (tokens s.now)) ≤ length out.old }
    ensures value { result ≡ length (spell (tokens s.now)) }
    ensures out_after { out.new ≡ over (spell (tokens s.now)) out.old }
{
    let mut w = 0;
    let mut ended = false;
    for p in text::pieces_of(s) {
        w = add_piece(out, w, ended, p);
        ended = ends_item(p);
    }
    w
}
