// `bench` on a sheet of 65,536 bytes, the longest. Reading it takes many pieces.
// A program of its own, with the same one call: the gate runs a program on one input.
#![tactic(auto)]

fn main(rt: HostRuntime) {
    let _delivery = console::run(&mut rt.reader(), &mut rt.stdout(), &mut rt.stderr());
}
