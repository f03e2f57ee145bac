#![tactic(auto)]

// Tables over the serial link, as definitions. Nothing here runs: what is believed stands in specs/, what is proved of it in proofs/.
pub fn nothing() {}
