// The grain loading panel on standard input and output, within document 01's limits of lines and bytes.
// The crate `readings` has the same main: a program is its main, with its own `stdin` and `stdout` beside it.
#![tactic(auto)]

fn main(rt: HostRuntime) {
    service::serve(
        &mut rt.stdin(),
        &mut rt.stdout(),
        input::most_lines(),
        input::most_bytes(),
    );
}
