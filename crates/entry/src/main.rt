// The table of the formula on standard input; a refusal goes to standard error; stored here: s0.
#![tactic(auto)]

fn main(rt: HostRuntime) {
    typed::entry(&mut rt.stdin(), &mut rt.stdout(), &mut rt.stderr());
}
