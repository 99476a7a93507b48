// Lines taken from blocks of input, with their replies behind those that wait. Nothing here reads or writes.
#![tactic(auto)]

ghost use Rattle.std.specs.Prelude.{◌≡◌, ◌+◌, ◌≤◌, ◌<◌, length, take};
ghost use Rattle.panel.specs.Step.{step_of};
ghost use Rattle.lines.specs.Taking.{FromBlock, RepliedBehind, BegunTaken, Room, FirstMoved, BlockMoved};

use condition::Condition;

// With more bytes of replies than these waiting, fewer than the 2,100 that a show needs are left of the 65,536.
const FILLED: usize = 63436;

// What goes from block to block, beside the kept bytes of a line and the replies: the condition, the lines that may still be
// taken, how many bytes of a line that has begun are kept, and how many bytes of replies wait. The bytes themselves lie in memory of a fixed size that
// `service` lends, so that these are counts and no slices. Each function changes it in place: the condition is large.
#[derive(Clone, Copy)]
pub struct Feed {
    pub cond: Condition,
    pub left: u64,
    pub used: usize,
    pub filled: usize,
}

// A block and the place in it from which on lines are taken go together below, and each function gives the place up to which it took them: the service reads its next
// block into the same memory, and so keeps a place in it from turn to turn, and no slice of it. The memory of the line that has begun and of the replies is lent beside the
// feed: the laws speak of each of the three, before and after, by its own name, and a struct of the three would hold two `&mut` (see `reply::append`).

// ---- lines of a block

// The place behind a byte of the block. Apart, so that the loop over lines knows at once that it is no further than the block's end.
fn behind(block: &[u8], at: usize) -> usize
    requires { at < length block.now }
    ensures value { result ≡ at + 1 }
    ensures upper_bound { result ≤ length block.now }
{
    at + 1
}

// One line: its reply goes behind those that wait. How long the reply is.
fn take_line(c: &mut Condition, line: &[u8], out: &mut [u8], filled: usize) -> usize
    requires { (filled + 2100 ≤ 65536) × (length out.old ≡ 65536) }
    ensures { RepliedBehind (step_of c.old line.now 2100) c.new result filled out.old out.new }
{
    let r = panel::take(c, line, &mut out[filled..]);
    r.len
}

// Takes the lines of a block from `at` on: up to the last that byte 10 ends, while lines are left and there is room for a reply. No `for` over the lines: whether one
// more is taken hangs on what the replies before it have filled.
fn take_lines(f: &mut Feed, block: &[u8], at: usize, out: &mut [u8]) -> usize
    requires { (at ≤ length block.now) × (f.old.filled ≤ 65536) × (length out.old ≡ 65536) }
    ensures { FromBlock f.old block.now at out.old (record { feed = f.new; at = result }) out.new }
{
    let mut i = at;
    while 0 < f.left {
        if FILLED < f.filled {
            return i;
        }
        let e = input::line_end(block, i);
        if block.len() <= e {
            return i;
        }
        let line = &block[i..e];
        let long = take_line(&mut f.cond, line, out, f.filled);
        f.filled += long;
        f.left -= 1;
        i = behind(block, e);
    }
    i
}

// ---- the line that has begun, and the block's last

// The line that has begun is ended: with byte 10 behind it, it is taken as a block of its own.
pub fn take_begun(f: &mut Feed, line: &mut [u8], out: &mut [u8])
    requires { Room f.old line.old out.old }
    ensures { BegunTaken f.old (take f.old.used line.old) (take f.old.filled out.old) f.new (take f.new.filled out.new) }
{
    let used = f.used;
    line[used] = b'\n';
    let end = used + 1;
    take_lines(f, &line[..end], 0, out);
    f.used = 0;
}

// The line that has begun in an earlier block, up to this block's first byte 10 from `at` on.
fn first_line(f: &mut Feed, block: &[u8], at: usize, line: &mut [u8], out: &mut [u8]) -> usize
    requires { (at < length block.now) × Room f.old line.old out.old }
    ensures { FirstMoved f.old line.old out.old block.now at (record { feed = f.new; at = result }) line.new out.new }
{
    if f.used == 0 {
        return at;
    }
    let e = input::line_end(block, at);
    f.used = input::keep(line, f.used, &block[at..e]);
    if block.len() <= e {
        return e;
    }
    take_begun(f, line, out);
    behind(block, e)
}

// Takes the lines of a block from `at` on, the one that has begun first, and keeps what stands behind the last; where the replies
// fill their buffer, the block goes on behind the lines that were taken.
pub fn feed_block(f: &mut Feed, block: &[u8], at: usize, line: &mut [u8], out: &mut [u8]) -> usize
    requires { (at < length block.now) × Room f.old line.old out.old }
    ensures { BlockMoved f.old line.old out.old block.now at (record { feed = f.new; at = result }) line.new out.new }
{
    let first = first_line(f, block, at, line, out);
    let rest = take_lines(f, block, first, out);
    let all = block.len();
    if f.left == 0 {
        return all;
    }
    if FILLED < f.filled {
        return rest;
    }
    f.used = input::keep(line, f.used, &block[rest..]);
    all
}
