// What is heard of a line: its request, or why it is turned down.
#![tactic(auto)]

ghost use Rattle.std.specs.Prelude.{◌≡◌};
ghost use Rattle.hearing.specs.Hearing.{heard_in, heard_of};

use forms::Request;
use line_codes::Fault;

// The request of a line, in the memory lent for it, or why there is none. A line of a shape passes the tests of its form (`ShapesAreSound`), which are
// therefore made only where no shape is read.
pub fn hear(line: &[u8], request: &mut Request) -> Result<(), Fault>
    ensures { heard_in request.new result ≡ heard_of line.now }
{
    line_codes::test_bytes(line)?;
    if request::request_of(line, request) {
        return Ok(());
    }
    line_codes::test_form(line)?;
    Err(Fault::NoShape)
}
