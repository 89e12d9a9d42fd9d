// When a tile arrives, as definitions (specs/), and what is proved of it (proofs/): RULES 22.1 to 22.13. There is no code here.

#![tactic(auto)]
