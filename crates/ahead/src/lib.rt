// Tiles sent ahead of their booked slots, as definitions (specs/), and what is proved of them (proofs/): RULES 24.1 to 24.9. There is no code here.

#![tactic(auto)]
