// A text of 32,768 bytes, the most that is read: the program prints `verified`.
#![tactic(auto)]

fn main(rt: HostRuntime) {
    program::run(&mut rt.stdin(), &mut rt.stdout(), &mut rt.stderr());
}
