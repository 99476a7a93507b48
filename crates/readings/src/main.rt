// The panel on document 01's readings that are not in the proved set: `stdin` has their lines, and each judge's reply in `stdout`
// shows one of them (tests/readings.py says which).
// The main is that of `panel_service`: a program is its main, with its own `stdin` and `stdout` beside it.
#![tactic(auto)]

fn main(rt: HostRuntime) {
    service::serve(
        &mut rt.stdin(),
        &mut rt.stdout(),
        input::most_lines(),
        input::most_bytes(),
    );
}
