// Program `bench`: reads a sheet on standard input and prints its answer on standard output.
#![tactic(auto)]

fn main(rt: HostRuntime) {
    let _delivery = console::run(&mut rt.reader(), &mut rt.stdout(), &mut rt.stderr());
}
