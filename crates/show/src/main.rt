// The text of the table on standard input; stored here: example 2.
#![tactic(auto)]

fn main(rt: HostRuntime) {
    typed::show(&mut rt.stdin(), &mut rt.stdout(), &mut rt.stderr());
}
