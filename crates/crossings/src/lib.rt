// A crossing from one link to the next: what a board does there, and what is proved of it. No code.

#![tactic(auto)]
