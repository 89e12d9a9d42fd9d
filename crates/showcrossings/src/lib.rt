// The ways of a show over crossings: what is said and proved of them. No code.

#![tactic(auto)]
