#![tactic(auto)]
// none
