#![tactic(auto)]

// The rules as definitions (specs/), and what is proved of them (proofs/). There is no code here: the other crates' contracts cite it.
