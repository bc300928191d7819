// Checks the certificate that comes on standard input, and prints one line: `verified`, or `refused C L` with reason C and
// line L in decimal.
#![tactic(auto)]

fn main(rt: HostRuntime) {
    program::run(&mut rt.stdin(), &mut rt.stdout(), &mut rt.stderr());
}
