// The shapes of document 01's forms, each with its record.
#![tactic(auto)]

ghost use Rattle.std.specs.Prelude.{◌≡◌, IfSome};
ghost use Rattle.text.specs.Token.{tokens};
ghost use Rattle.text.specs.Front.{TailOf};
ghost use Rattle.items.specs.Carried.{carry};
ghost use Rattle.forms.specs.Shape.{rule_named, rule_of, ship?, column?, load?, mode_named, parts?, hold?, drop?, form_word, form_by};
ghost use Rattle.forms.specs.Carried.{carried_request};
ghost use Rattle.forms.specs.Reads.{read_into};

use record::{Column, Head, Hold, Load, Mode, Rule, Ship, Weighing};

// What a line asks for: which form it is, with its record. It is large: what reads one writes it into memory that is lent, and gives what is left of the line. Where it gives none,
// what that memory holds is left open.
#[derive(Clone, Copy)]
pub enum Request {
    ShipLine(Ship),
    ColumnLine(Column),
    LoadLine(Load),
    HoldLine(u32, Hold),
    DropLine(u32),
    JudgeLine,
    ClearLine,
    ShowLine,
    TotalLine,
    WeighingLine(Weighing),
}

// The word of a rule, apart from the edge behind it: a table of words and of what makes the rule would hold function pointers, as of cells.
#[derive(Clone, Copy, Debug, PartialEq, Eq)]
pub enum RuleWord {
    NewWord,
    OldWord,
}

// The word of a form, apart from what stands behind it: a show takes these words and no others, and a table of words and readers would hold function
// pointers.
#[derive(Clone, Copy, Debug, PartialEq, Eq)]
pub enum FormWord {
    ShipWord,
    ColumnWord,
    LoadWord,
    HoldWord,
    DropWord,
    JudgeWord,
    ClearWord,
}

// ---- ships, loads, drops, columns

// The words of rules.
const RULES: [(&[u8], RuleWord); 2] = [(b"new", RuleWord::NewWord), (b"old", RuleWord::OldWord)];

#[tactic(auto, unfolding(items::specs::Grammar::named, items::specs::Reads::found))]
fn rule_named(word: &[u8]) -> Option<RuleWord>
    ensures { result ≡ rule_named word.now }
{
    items::named(&RULES, word)
}

// The rule that its word and its edge make.
fn rule_of(word: RuleWord, edge: u16) -> Rule
    ensures { result ≡ rule_of word edge }
{
    match word {
        RuleWord::NewWord => Rule::New(edge),
        RuleWord::OldWord => Rule::Old(edge),
    }
}

// `RULE EDGE FLOOD)`
fn ship<'a>(s: &'a [u8], request: &mut Request) -> Option<&'a [u8]>
    ensures read { carry carried_request (ship? (tokens s.now)) ≡ read_into request.new result }
    ensures tail { IfSome result (λ r. TailOf r.now s.now) }
{
    let (word, rest) = items::run(s)?;
    let word = rule_named(word)?;
    let ([edge, flood], rest) = items::last_sizes::<2>(rest)?;
    let ship = Ship {
        rule: rule_of(word, edge),
        flood,
    };
    *request = Request::ShipLine(ship);
    Some(rest)
}

// `D KG FS)`
fn load<'a>(s: &'a [u8], request: &mut Request) -> Option<&'a [u8]>
    ensures read { carry carried_request (load? (tokens s.now)) ≡ read_into request.new result }
    ensures tail { IfSome result (λ r. TailOf r.now s.now) }
{
    let (d, rest) = items::number(s)?;
    let ([kg, fs], rest) = items::last_sizes::<2>(rest)?;
    *request = Request::LoadLine(Load { d, kg, fs });
    Some(rest)
}

// `N)`
#[tactic(auto, unfolding(crate::specs::Carried::carried_request))]
fn drop<'a>(s: &'a [u8], request: &mut Request) -> Option<&'a [u8]>
    ensures read { carry carried_request (drop? (tokens s.now)) ≡ read_into request.new result }
    ensures tail { IfSome result (λ r. TailOf r.now s.now) }
{
    let (n, rest) = items::number(s)?;
    let rest = items::close(rest)?;
    *request = Request::DropLine(n);
    Some(rest)
}

// `D KM (K .. K))`
#[tactic(auto, using(text::proofs::Tails::tail_tail), unfolding(crate::specs::Carried::carried_request))]
fn column<'a>(s: &'a [u8], request: &mut Request) -> Option<&'a [u8]>
    ensures read { carry carried_request (column? (tokens s.now)) ≡ read_into request.new result }
    ensures tail { IfSome result (λ r. TailOf r.now s.now) }
{
    let (d, rest) = items::number(s)?;
    let (km, rest) = items::size(rest)?;
    let rest = items::open(rest)?;
    let (kn, rest) = items::last_sizes::<10>(rest)?;
    let rest = items::close(rest)?;
    *request = Request::ColumnLine(Column { d, km, kn });
    Some(rest)
}

// ---- a hold

// `SF PART ..)`. `as` keeps a count of at most six: of `try_from` the error that cannot be would have to be answered, as of cells.
fn parts<'a>(n: u32, mode: Mode, s: &'a [u8], request: &mut Request) -> Option<&'a [u8]>
    ensures read { carry carried_request (parts? n mode (tokens s.now)) ≡ read_into request.new result }
    ensures tail { IfSome result (λ r. TailOf r.now s.now) }
{
    let (factor, rest) = items::size(s)?;
    let mut hold = record::no_hold();
    let (count, rest) = items::several(rest, &mut hold.parts, |t| parts::part(mode, t))?;
    hold.head = Head {
        mode,
        factor,
        count: count as u8,
    };
    *request = Request::HoldLine(n, hold);
    Some(rest)
}

// The words of modes.
const MODES: [(&[u8], Mode); 3] = [
    (b"trimmed", Mode::Trimmed),
    (b"voided", Mode::Voided),
    (b"partial", Mode::Partial),
];

#[tactic(auto, unfolding(items::specs::Grammar::named, items::specs::Reads::found))]
fn mode_named(word: &[u8]) -> Option<Mode>
    ensures { result ≡ mode_named word.now }
{
    items::named(&MODES, word)
}

// `N MODE SF PART ..)`
fn hold<'a>(s: &'a [u8], request: &mut Request) -> Option<&'a [u8]>
    ensures read { carry carried_request (hold? (tokens s.now)) ≡ read_into request.new result }
    ensures tail { IfSome result (λ r. TailOf r.now s.now) }
{
    let (n, rest) = items::number(s)?;
    let (word, rest) = items::run(rest)?;
    let mode = mode_named(word)?;
    parts(n, mode, rest, request)
}

// ---- a form by its word

// The words of forms.
const FORMS: [(&[u8], FormWord); 7] = [
    (b"ship", FormWord::ShipWord),
    (b"column", FormWord::ColumnWord),
    (b"load", FormWord::LoadWord),
    (b"hold", FormWord::HoldWord),
    (b"drop", FormWord::DropWord),
    (b"judge", FormWord::JudgeWord),
    (b"clear", FormWord::ClearWord),
];

#[tactic(auto, unfolding(items::specs::Grammar::named, items::specs::Reads::found))]
pub fn form_word(word: &[u8]) -> Option<FormWord>
    ensures { result ≡ form_word word.now }
{
    items::named(&FORMS, word)
}

// What stands behind a form's word.
#[tactic(auto, using(crate::proofs::Records::bare_read), unfolding(crate::specs::Carried::carried_request))]
pub fn form_by<'a>(word: FormWord, s: &'a [u8], request: &mut Request) -> Option<&'a [u8]>
    ensures read { carry carried_request (form_by word (tokens s.now)) ≡ read_into request.new result }
    ensures tail { IfSome result (λ r. TailOf r.now s.now) }
{
    match word {
        FormWord::ShipWord => ship(s, request),
        FormWord::ColumnWord => column(s, request),
        FormWord::LoadWord => load(s, request),
        FormWord::HoldWord => hold(s, request),
        FormWord::DropWord => drop(s, request),
        FormWord::JudgeWord => {
            *request = Request::JudgeLine;
            items::close(s)
        }
        FormWord::ClearWord => {
            *request = Request::ClearLine;
            items::close(s)
        }
    }
}
