// The formula on standard input, shortened, and its listing; stored here: s0*s1*s0.
#![tactic(auto)]

fn main(rt: HostRuntime) {
    typed::shorten(&mut rt.stdin(), &mut rt.stdout(), &mut rt.stderr());
}
