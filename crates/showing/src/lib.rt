// The reply to a show line.
#![tactic(auto)]

ghost use Rattle.std.specs.Prelude.{◌≡◌, ◌≤◌, length, Some};
ghost use Rattle.text.specs.Token.{tokens};
ghost use Rattle.reply.specs.Written.{over};
ghost use Rattle.forms.specs.declared.Request.TheVariants.{ShowLine};
ghost use Rattle.request.specs.Shape.{request_of};
ghost use Rattle.showing.specs.Show.{show_reply};

// The form inside a show line, in the one spelling, and a newline, over the front of a buffer. What stands behind the word `show` is spelled,
// and its last byte, the bracket that closes the line, gives way to the newline.
pub fn show(line: &[u8], out: &mut [u8]) -> usize
    requires is_show { request_of (tokens line.now) ≡ Some ShowLine }
    requires room { (length line.now ≤ 2000) × (2100 ≤ length out.old) }
    ensures value { result ≡ length (show_reply (tokens line.now)) }
    ensures out_after { out.new ≡ over (show_reply (tokens line.now)) out.old }
{
    let Some((_, rest)) = items::head(line) else {
        unreachable!()
    };
    let len = spelling::spell(rest, out);
    out[len - 1] = b'\n';
    len
}
