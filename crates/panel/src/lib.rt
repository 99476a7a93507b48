// The reply to what is heard of a line, and the step of one line.
#![tactic(auto)]

ghost use Rattle.std.specs.Prelude.{◌≡◌, ◌≤◌, length, Some, option_map};
ghost use Rattle.text.specs.Token.{tokens};
ghost use Rattle.forms.specs.declared.Request.TheVariants.{ShowLine};
ghost use Rattle.forms.specs.Carried.{carried_request};
ghost use Rattle.request.specs.Shape.{request_of};
ghost use Rattle.hearing.specs.Hearing.{heard_in, heard_of};
ghost use Rattle.grain.specs.Sum.{weighed_code, weighed_moment};
ghost use Rattle.reply.specs.Replies.{answer_reply, total_reply};
ghost use Rattle.operations.specs.Answers.{answer_code};
ghost use Rattle.judging.specs.Judge.{judged_of};
ghost use Rattle.panel.specs.Step.{verdict_given, show_code, show_answer, outcome_of, step_of, Steps};
ghost use Rattle.panel.specs.Handed.{moment_found, handed_on, Replies};

use condition::Condition;
use forms::Request;
use grain::NotWeighed;
use line_codes::Fault;
use operations::Refusal;

// The least buffer that may be lent for a reply, and for the reply of show, in bytes.
const LEAST_ROOM: usize = 96;

const SHOW_ROOM: usize = 2100;

// The paper's codes for a buffer that is too short: for any reply, and for the reply of show; and for what is taken. Each is given at one place or two, so that an
// enum of them would be turned into its number where it is made.
const NO_ROOM: u8 = 15;

const NO_ROOM_FOR_SHOW: u8 = 16;

const TAKEN: u8 = 0;

// A code, which is the number that the paper has printed, the length of the reply that shows it, and the moment of a hold that was weighed for it, which its effect puts into the figure.
// The moment is 0 where no hold was weighed: the effect of a hold alone reads it, and with an `Option` would have to say a second time what none is.
#[derive(Clone, Copy)]
pub struct Replied {
    pub code: u8,
    pub len: usize,
    pub moment: u64,
}

// What a line gives: its code, the reply's length and the condition after it. The code is a number here and below, since the claims speak of the numbers printed: an enum of
// the twenty codes would be a second name for each, turned back into its number by the next function.
#[derive(Clone, Copy)]
pub struct Stepped {
    pub code: u8,
    pub len: usize,
    pub after: Condition,
}

// ---- the replies

// That the lent buffer has 96 bytes, and that the line of a request has at most 2,000, is asked from function to function: a type of such a buffer or line would be
// made in `answer` alone, and opened again for each call of `reply` and `showing`.

// A reply for which no hold was weighed.
fn plain_reply(code: u8, len: usize) -> Replied
    ensures { result ≡ record { code = code; len = len; moment = 0 } }
{
    Replied {
        code,
        len,
        moment: 0,
    }
}

// Every line but judge, a show that is taken and total is answered `(answer CC)`.
fn answer_with(code: u8, out: &mut [u8]) -> Replied
    requires { 96 ≤ length out.old }
    ensures { Replies code (answer_reply code) 0 result out.old out.new }
{
    plain_reply(code, reply::answer(out, code))
}

// An operation is answered with 00, or the code of its refusal.
fn answer_operation(a: Result<(), Refusal>, out: &mut [u8]) -> Replied
    requires { 96 ≤ length out.old }
    ensures { Replies (answer_code a) (answer_reply (answer_code a)) 0 result out.old out.new }
{
    answer_with(operations::answer_code(a), out)
}

// A hold line is answered with the code of its weighing, and hands its moment on.
fn answer_weighed(w: Result<u64, NotWeighed>, out: &mut [u8]) -> Replied
    requires { 96 ≤ length out.old }
    ensures { Replies (weighed_code w) (answer_reply (weighed_code w)) (weighed_moment w) result out.old out.new }
{
    let mut r = answer_operation(operations::weighed_answer(w), out);
    r.moment = total::weighed_moment(w);
    r
}

// Total replies `(answer 00 W)`.
fn show_total(figure: u64, out: &mut [u8]) -> Replied
    requires { 96 ≤ length out.old }
    ensures { Replies 0 (total_reply figure) 0 result out.old out.new }
{
    plain_reply(TAKEN, reply::total(out, figure))
}

// Judge replies `(verdict CC ..)`.
fn give_verdict(c: &Condition, out: &mut [u8]) -> Replied
    requires { 96 ≤ length out.old }
    ensures { Replies (verdict_given c.now (judged_of c.now)).code (verdict_given c.now (judged_of c.now)).reply 0 result out.old out.new }
{
    match judging::judge(c) {
        Err(r) => {
            let code = judging::refusal_code(r);
            plain_reply(code, reply::refusal(out, code))
        }
        Ok(v) => {
            let code = judging::judgement_code(v.judgement);
            plain_reply(
                code,
                reply::verdict(out, code, v.gm, v.diff, v.upper, v.area),
            )
        }
    }
}

// Show replies with the form inside it; 16 where fewer than 2,100 bytes are lent.
fn show_form(line: &[u8], out: &mut [u8]) -> Replied
    requires is_show { request_of (tokens line.now) ≡ Some ShowLine }
    requires room { (length line.now ≤ 2000) × (96 ≤ length out.old) }
    ensures { Replies (show_code (length out.old)) (show_answer (tokens line.now) (length out.old)) 0 result out.old out.new }
{
    if out.len() < SHOW_ROOM {
        return answer_with(NO_ROOM_FOR_SHOW, out);
    }
    plain_reply(TAKEN, showing::show(line, out))
}

// The reply to the request of a line.
#[tactic(auto, unfolding(crate::specs::Step::outcome_of), using(crate::proofs::Carrying::carried_show))]
fn reply_to(c: &Condition, line: &[u8], r: &Request, out: &mut [u8]) -> Replied
    requires asked { option_map carried_request (request_of (tokens line.now)) ≡ Some r.now }
    requires room { (length line.now ≤ 2000) × (96 ≤ length out.old) }
    ensures { Replies (outcome_of c.now (tokens line.now) (length out.old) r.now).code (outcome_of c.now (tokens line.now) (length out.old) r.now).reply (moment_found r.now) result out.old out.new }
{
    match r {
        Request::ShipLine(s) => answer_operation(operations::ship_answer(*s), out),
        Request::ColumnLine(k) => answer_operation(operations::column_answer(c, *k), out),
        Request::LoadLine(l) => answer_operation(operations::load_answer(*l), out),
        Request::HoldLine(n, h) => answer_weighed(operations::hold_answer(*n, h), out),
        Request::DropLine(n) => answer_operation(operations::drop_answer(c, *n), out),
        Request::JudgeLine => give_verdict(c, out),
        Request::ClearLine => answer_with(TAKEN, out),
        Request::ShowLine => show_form(line, out),
        Request::TotalLine => show_total(c.total, out),
        Request::WeighingLine(w) => answer_operation(operations::weighing_answer(c.sums, *w), out),
    }
}

// The reply to a line and what was heard of it, at the front of the lent buffer.
pub fn answer(
    c: &Condition,
    line: &[u8],
    h: Result<(), Fault>,
    request: &Request,
    out: &mut [u8],
) -> Replied
    requires { heard_in request.now h ≡ heard_of line.now }
    ensures { Replies (step_of c.now line.now (length out.old)).code (step_of c.now line.now (length out.old)).reply (handed_on (heard_of line.now) (length out.old)) result out.old out.new }
{
    if out.len() < LEAST_ROOM {
        return plain_reply(NO_ROOM, 0);
    }
    match h {
        Ok(()) => reply_to(c, line, request, out),
        Err(fault) => answer_with(line_codes::fault_code(fault), out),
    }
}

// ---- the step

// One line, in place: its reply at the front of the lent buffer, and its effect on the condition. A condition is large, and so is a request: the one that is read is
// made here, and lent to all. A line that is turned down, which has no request, is never answered with 00.
pub fn take(c: &mut Condition, line: &[u8], out: &mut [u8]) -> Replied
    ensures steps { Steps (step_of c.old line.now (length out.old)) (record { code = result.code; len = result.len; after = c.new }) out.old out.new }
    ensures moment { result.moment ≡ handed_on (heard_of line.now) (length out.old) }
{
    let mut request = Request::JudgeLine;
    let h = hearing::hear(line, &mut request);
    let r = answer(c, line, h, &request, out);
    if r.code == TAKEN {
        effects::effect(c, &request, r.moment);
    }
    r
}

// One line: its reply at the front of the lent buffer, and the condition after it.
pub fn step(c: Condition, line: &[u8], out: &mut [u8]) -> Stepped
    ensures { Steps (step_of c line.now (length out.old)) result out.old out.new }
{
    let mut after = c;
    let r = take(&mut after, line, out);
    Stepped {
        code: r.code,
        len: r.len,
        after,
    }
}
