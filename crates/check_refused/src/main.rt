// Document 01's example with `D1 L 0`: the program prints `refused 15 14`.
#![tactic(auto)]

fn main(rt: HostRuntime) {
    program::run(&mut rt.stdin(), &mut rt.stdout(), &mut rt.stderr());
}
