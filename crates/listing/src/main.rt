// The listing of the table on standard input, by the rules of the edition that the argument names, or of edition one where there is none;
// stored here: example 2.
#![tactic(auto)]

use std::env::{Env, FillError};

// The edition that is asked for, a digit, or 1 where there is no argument; 0, which is no edition, where the argument is anything else.
fn edition(env: &impl Env) -> usize {
    let mut word = [0u8; 1];
    match env.arg(1, &mut word) {
        Ok(1) if word[0].is_ascii_digit() => (word[0] - b'0') as usize,
        Ok(_) | Err(FillError::TooLong) => 0,
        Err(FillError::NotPresent) => 1,
    }
}

fn main(rt: HostRuntime) {
    report::run(
        &mut rt.stdin(),
        &mut rt.stdout(),
        &mut rt.stderr(),
        edition(&rt),
    );
}
