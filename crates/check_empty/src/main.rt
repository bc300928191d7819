// No bytes: the program prints `refused 3 1`.
#![tactic(auto)]

fn main(rt: HostRuntime) {
    program::run(&mut rt.stdin(), &mut rt.stdout(), &mut rt.stderr());
}
