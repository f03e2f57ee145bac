#![tactic(auto)]

// What the second machine believes, as definitions. Nothing here runs: what is stated stands in specs/, what is proved in proofs/.
pub fn nothing() {}
