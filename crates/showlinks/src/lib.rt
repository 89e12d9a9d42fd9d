// The boards of a show played by the code: what is said and proved of them. No code.

#![tactic(auto)]
