// The same service with small limits, so that tests reach them: three lines, 64 bytes.
#![tactic(auto)]

fn main(rt: HostRuntime) {
    service::serve(&mut rt.stdin(), &mut rt.stdout(), 3, 64);
}
