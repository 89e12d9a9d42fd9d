// Link images as definitions (specs/), and what is proved of them (proofs/): RULES 12.1 to 12.7. There is no code here: the exports' contracts cite
// it.

#![tactic(auto)]
