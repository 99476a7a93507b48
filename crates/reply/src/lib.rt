// Replies, written into what is left of a lent buffer.
#![tactic(auto)]

ghost use Rattle.std.specs.Prelude.{◌≡◌, ◌∷◌, ◌+◌, ◌≤◌, length};
ghost use Rattle.reply.specs.Written.{over, into, digits, decimal, figure, two_digits};
ghost use Rattle.reply.specs.Replies.{coded_reply, answer_reply, refusal_reply, verdict_reply, total_reply};

// A text over the front of a buffer.
#[tactic(auto, unfolding(crate::specs::Written::over))]
fn put(out: &mut [u8], w: &[u8]) -> usize
    requires { length w.now ≤ length out.old }
    ensures value { result ≡ length w.now }
    ensures out_after { out.new ≡ over w.now out.old }
{
    out[..w.len()].copy_from_slice(w);
    w.len()
}

// The decimal digits of n, of which there are at most k, over the front of a buffer. Not by `write!`: into a `&mut [u8]` its contract names no byte, and the
// library's writers of which it names them take heap.
#[tactic(auto, using(crate::proofs::Writing::over_none, crate::proofs::Writing::digits_none, crate::proofs::Writing::digits_one, crate::proofs::Writing::digits_more, crate::proofs::Writing::length_more, crate::proofs::Writing::over_one, crate::proofs::Writing::over_snoc))]
fn put_digits(out: &mut [u8], n: u64, k: usize) -> usize
    requires { length (digits k n) ≤ length out.old }
    ensures value { result ≡ length (digits k n) }
    ensures out_after { out.new ≡ over (digits k n) out.old }
{
    if k == 0 {
        return 0;
    }
    if n < 10 {
        out[0] = b'0' + n as u8;
        return 1;
    }
    let at = put_digits(out, n / 10, k - 1);
    out[at] = b'0' + (n % 10) as u8;
    at + 1
}

fn put_decimal(out: &mut [u8], n: u64) -> usize
    requires { length (decimal n) ≤ length out.old }
    ensures value { result ≡ length (decimal n) }
    ensures out_after { out.new ≡ over (decimal n) out.old }
{
    put_digits(out, n, 20)
}

// A text behind the `at` bytes that are written already: it gets the part of the buffer that starts there. Buffer and place go side by side: a struct that
// holds a `&mut` has to say in each contract besides that it still holds the same one.
#[tactic(auto, using(crate::proofs::Writing::lent))]
pub fn append(out: &mut [u8], at: usize, w: &[u8]) -> usize
    requires { at + length w.now ≤ length out.old }
    ensures value { result ≡ at + length w.now }
    ensures out_after { out.new ≡ into at w.now out.old }
{
    at + put(&mut out[at..], w)
}

// A figure that is not below zero, likewise.
#[tactic(auto, using(crate::proofs::Writing::lent))]
fn append_decimal(out: &mut [u8], at: usize, n: u64) -> usize
    requires { at + length (decimal n) ≤ length out.old }
    ensures value { result ≡ at + length (decimal n) }
    ensures out_after { out.new ≡ into at (decimal n) out.old }
{
    at + put_decimal(&mut out[at..], n)
}

// A code, in two digits, likewise.
fn append_code(out: &mut [u8], at: usize, code: u8) -> usize
    requires { at + 2 ≤ length out.old }
    ensures value { result ≡ at + 2 }
    ensures out_after { out.new ≡ into at (two_digits code) out.old }
{
    let text = [b'0' + code / 10, b'0' + code % 10];
    append(out, at, &text)
}

// A figure, likewise; below zero it carries a minus sign.
#[tactic(auto, using(crate::proofs::Writing::into_into, crate::proofs::Writing::figure_above, crate::proofs::Writing::figure_below))]
fn append_figure(out: &mut [u8], at: usize, z: i64) -> usize
    requires { at + length (figure z) ≤ length out.old }
    ensures value { result ≡ at + length (figure z) }
    ensures out_after { out.new ≡ into at (figure z) out.old }
{
    if z < 0 {
        let a = append(out, at, b"-");
        append_decimal(out, a, sign::below_zero(z))
    } else {
        append_decimal(out, at, sign::above_zero(z))
    }
}

// A head, a code, the closing bracket and a newline. A code is the number that the paper has printed, here and below.
fn coded(out: &mut [u8], head: &[u8], code: u8) -> usize
    requires { length head.now + 4 ≤ length out.old }
    ensures value { result ≡ length (coded_reply head.now code) }
    ensures out_after { out.new ≡ over (coded_reply head.now code) out.old }
{
    let a = put(out, head);
    let b = append_code(out, a, code);
    append(out, b, b")\n")
}

// `(answer CC)`. Any buffer of 96 bytes or more may be lent, here and below: an array of 96 would ask more of who has another.
pub fn answer(out: &mut [u8], code: u8) -> usize
    requires { 96 ≤ length out.old }
    ensures value { result ≡ length (answer_reply code) }
    ensures out_after { out.new ≡ over (answer_reply code) out.old }
{
    coded(out, b"(answer ", code)
}

// `(verdict CC)`: two replies of the paper by two names, one line each.
pub fn refusal(out: &mut [u8], code: u8) -> usize
    requires { 96 ≤ length out.old }
    ensures value { result ≡ length (refusal_reply code) }
    ensures out_after { out.new ≡ over (refusal_reply code) out.old }
{
    coded(out, b"(verdict ", code)
}

// A space and a figure behind what is written.
#[tactic(auto, using(crate::proofs::Writing::into_into))]
fn append_field(out: &mut [u8], at: usize, z: i64) -> usize
    requires { at + 1 + length (figure z) ≤ length out.old }
    ensures value { result ≡ at + 1 + length (figure z) }
    ensures out_after { out.new ≡ into at (32 ∷ figure z) out.old }
{
    let a = append(out, at, b" ");
    append_figure(out, a, z)
}

// A space and a figure that is not below zero, behind what is written: it may pass the greatest that has a sign.
#[tactic(auto, using(crate::proofs::Writing::into_into))]
fn append_count(out: &mut [u8], at: usize, n: u64) -> usize
    requires { at + 1 + length (decimal n) ≤ length out.old }
    ensures value { result ≡ at + 1 + length (decimal n) }
    ensures out_after { out.new ≡ into at (32 ∷ decimal n) out.old }
{
    let a = append(out, at, b" ");
    append_decimal(out, a, n)
}

// `(verdict CC GM DIFF UPPER AREA)`, figure by figure: `stability::Verdict` stands above the arithmetic, of which replies know nothing.
#[tactic(auto, unfolding(crate::specs::Replies::verdict_reply), using(crate::proofs::Writing::over_part, crate::proofs::Writing::read_short, crate::proofs::Writing::short_four, crate::proofs::Writing::length_digits))]
pub fn verdict(out: &mut [u8], code: u8, gm: i64, diff: i64, upper: u64, area: u64) -> usize
    requires { (96 ≤ length out.old) × (upper ≤ 4000) }
    ensures value { result ≡ length (verdict_reply code gm diff upper area) }
    ensures out_after { out.new ≡ over (verdict_reply code gm diff upper area) out.old }
{
    let a = put(out, b"(verdict ");
    let b = append_code(out, a, code);
    let c = append_field(out, b, gm);
    let d = append_field(out, c, diff);
    let e = append_count(out, d, upper);
    let f = append_count(out, e, area);
    append(out, f, b")\n")
}

// `(answer 00 W)`.
#[tactic(auto, unfolding(crate::specs::Replies::total_reply), using(crate::proofs::Writing::over_part, crate::proofs::Writing::length_digits))]
pub fn total(out: &mut [u8], w: u64) -> usize
    requires { 96 ≤ length out.old }
    ensures value { result ≡ length (total_reply w) }
    ensures out_after { out.new ≡ over (total_reply w) out.old }
{
    let a = put(out, b"(answer 00");
    let b = append_count(out, a, w);
    append(out, b, b")\n")
}
