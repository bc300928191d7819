// The text of check_full and one LF more: the program reads it all and prints `refused 2 0`, though the first 32,768 bytes would
// be verified.
#![tactic(auto)]

fn main(rt: HostRuntime) {
    program::run(&mut rt.stdin(), &mut rt.stdout(), &mut rt.stderr());
}
