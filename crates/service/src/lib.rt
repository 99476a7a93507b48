// Lines from standard input to the panel, and its replies to standard output: `serve` alone reads and writes.
#![tactic(auto)]

ghost use Rattle.std.specs.Prelude.{◌≡◌, [], ◌≤◌, length};
ghost use Rattle.lines.specs.Taking.{Stands};

use input::Told;
use lines::Feed;
use std::io::{ErrorKind, Read, Stdin, Stdout, Write};

// How often a read or a write is made before it counts as one that fails.
const TRIES: u32 = 1000000;

// Writes all of a slice; an interrupted write is repeated. Whether all was written. Not by `write_all`, which counts no tries and so has no end of its own.
fn write_out(output: &mut Stdout, bytes: &[u8]) -> bool {
    let mut left = bytes;
    for _ in 0..TRIES {
        if left.is_empty() {
            return true;
        }
        match output.write(left) {
            Ok(n) => left = &left[n..],
            Err(e) => {
                if e.kind() != ErrorKind::Interrupted {
                    return false;
                }
            }
        }
    }
    false
}

// Reads once, at most `most` bytes; an interrupted read is repeated. It stops at what came, where a write goes on behind what was written, so that each has a
// loop of its own. How many came: 0 at the end of the input, or where a read
// fails, since both end the input: what was taken until then is answered.
fn fetch(input: &mut Stdin, block: &mut [u8], most: usize) -> usize
    requires { most ≤ length block.old }
    ensures { result ≤ most }
{
    for _ in 0..TRIES {
        match input.read(&mut block[..most]) {
            Ok(n) => return n,
            Err(e) => {
                if e.kind() != ErrorKind::Interrupted {
                    return 0;
                }
            }
        }
    }
    0
}

// Nothing read, nothing taken.
fn start(left: u64) -> Feed
    ensures stands { Stands left [] result [] [] }
    ensures used_value { result.used ≡ 0 }
    ensures filled_value { result.filled ≡ 0 }
{
    Feed {
        cond: condition::empty_condition(),
        left,
        used: 0,
        filled: 0,
    }
}

// What waited was written, all of it. Apart, so that what was written is held to what waited.
fn emptied(f: &mut Feed, written: usize)
    requires { written ≡ f.old.filled }
    ensures { f.new ≡ record { cond = f.old.cond; left = f.old.left; used = f.old.used; filled = 0 } }
{
    f.filled = 0;
}

// Takes lines from standard input until it ends, or this many lines or bytes were read. A turn takes lines from what is left of the
// block and writes their replies, or reads the next block. `going` is a flag, and no `break`: where it is false, the loop's invariant says that the lines of the whole
// input were taken; behind a `break` nothing would ask for it.
pub fn serve(from: &mut Stdin, to: &mut Stdout, max_lines: u64, max_bytes: u64) {
    let mut block = [0u8; 65536];
    let mut line = [0u8; 2002];
    let mut out = [0u8; 65536];
    let mut f = start(max_lines);
    let mut more = max_bytes;
    let mut n = 0;
    let mut at = 0;
    let mut going = true;
    while going {
        if at < n {
            at = lines::feed_block(&mut f, &block[..n], at, &mut line, &mut out);
            let waits = f.filled;
            if !write_out(to, &out[..waits]) {
                return;
            }
            emptied(&mut f, waits);
            continue;
        }
        let ask = input::to_ask(f.left, f.used, more);
        if ask == 0 {
            going = false;
            continue;
        }
        n = fetch(from, &mut block, ask);
        at = 0;
        match input::tell(f.used, more, n) {
            Told::Goes => more -= n as u64,
            Told::NoMore => going = false,
            Told::LastLine => {
                lines::take_begun(&mut f, &mut line, &mut out);
                going = false;
            }
        }
    }
    let waits = f.filled;
    write_out(to, &out[..waits]);
}
