// The shapes of lines: which form a line is or shows, and its record (code 14).
#![tactic(auto)]

ghost use Rattle.std.specs.Prelude.{◌≡◌, IfSome, Some, None, cond, option_map};
ghost use Rattle.text.specs.Token.{tokens};
ghost use Rattle.text.specs.Front.{TailOf};
ghost use Rattle.items.specs.Carried.{carry};
ghost use Rattle.forms.specs.Carried.{carried_request};
ghost use Rattle.forms.specs.Reads.{read_into};
ghost use Rattle.request.specs.Shape.{show?, weight?, weighed?, line_word, line_by, line?, request_of};

use forms::{FormWord, Request};
use record::{Weighing, WeightItem};

// A line but show by its word, apart from what stands behind it, as `forms::FormWord`: one of document 01's forms, or one that no show takes.
#[derive(Clone, Copy, Debug, PartialEq, Eq)]
pub enum LineWord {
    OfForm(FormWord),
    TotalWord,
    WeightWord,
    WeighedWord,
    UnweighWord,
}

// `FORM)`. The form's record is not kept.
fn show<'a>(s: &'a [u8], request: &mut Request) -> Option<&'a [u8]>
    ensures read { carry carried_request (show? (tokens s.now)) ≡ read_into request.new result }
    ensures tail { IfSome result (λ r. TailOf r.now s.now) }
{
    let (word, behind) = items::head(s)?;
    let form = forms::form_word(word)?;
    let rest = forms::form_by(form, behind, request)?;
    *request = Request::ShowLine;
    items::close(rest)
}

// `T H)`
fn weight<'a>(s: &'a [u8], request: &mut Request) -> Option<&'a [u8]>
    ensures read { carry carried_request (weight? (tokens s.now)) ≡ read_into request.new result }
    ensures tail { IfSome result (λ r. TailOf r.now s.now) }
{
    let (tonnes, rest) = items::number(s)?;
    let ([height], rest) = items::last_sizes::<1>(rest)?;
    let item = WeightItem { tonnes, height };
    *request = Request::WeighingLine(Weighing::Weight(item));
    Some(rest)
}

// `FS)`
fn weighed<'a>(s: &'a [u8], request: &mut Request) -> Option<&'a [u8]>
    ensures read { carry carried_request (weighed? (tokens s.now)) ≡ read_into request.new result }
    ensures tail { IfSome result (λ r. TailOf r.now s.now) }
{
    let ([fs], rest) = items::last_sizes::<1>(s)?;
    *request = Request::WeighingLine(Weighing::Weighed(fs));
    Some(rest)
}

// The words of lines but show and document 01's forms.
const LINES: [(&[u8], LineWord); 4] = [
    (b"total", LineWord::TotalWord),
    (b"weight", LineWord::WeightWord),
    (b"weighed", LineWord::WeighedWord),
    (b"unweigh", LineWord::UnweighWord),
];

#[tactic(auto, unfolding(items::specs::Grammar::named, items::specs::Reads::found))]
fn line_word(word: &[u8]) -> Option<LineWord>
    ensures { result ≡ line_word word.now }
{
    items::named(&LINES, word).or_else(|| forms::form_word(word).map(LineWord::OfForm))
}

// What stands behind a line's word.
#[tactic(auto, using(forms::proofs::Records::bare_read), unfolding(forms::specs::Carried::carried_request))]
fn line_by<'a>(word: LineWord, s: &'a [u8], request: &mut Request) -> Option<&'a [u8]>
    ensures read { carry carried_request (line_by word (tokens s.now)) ≡ read_into request.new result }
    ensures tail { IfSome result (λ r. TailOf r.now s.now) }
{
    match word {
        LineWord::OfForm(form) => forms::form_by(form, s, request),
        LineWord::TotalWord => {
            *request = Request::TotalLine;
            items::close(s)
        }
        LineWord::WeightWord => weight(s, request),
        LineWord::WeighedWord => weighed(s, request),
        LineWord::UnweighWord => {
            *request = Request::WeighingLine(Weighing::Unweigh);
            items::close(s)
        }
    }
}

// A line: a show of a form, or by its word.
fn read_line<'a>(s: &'a [u8], request: &mut Request) -> Option<&'a [u8]>
    ensures read { carry carried_request (line? (tokens s.now)) ≡ read_into request.new result }
    ensures tail { IfSome result (λ r. TailOf r.now s.now) }
{
    let (word, rest) = items::head(s)?;
    if word == b"show".as_slice() {
        return show(rest, request);
    }
    line_by(line_word(word)?, rest, request)
}

// Whether a line has one of the shapes, with nothing behind it; its request is then in the lent memory.
pub fn request_of(line: &[u8], request: &mut Request) -> bool
    ensures { cond result (Some request.new) None ≡ option_map carried_request (request_of (tokens line.now)) }
{
    let Some(rest) = read_line(line, request) else {
        return false;
    };
    items::is_end(rest)
}
