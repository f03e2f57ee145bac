#![tactic(auto)]

// Settings that survive an upgrade, as definitions. Nothing here runs: what is believed stands in specs/, what is proved of it in proofs/.
pub fn nothing() {}
