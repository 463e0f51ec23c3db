// The situation, its events and their refusals, as definitions, and what is proved of every event. No code.
#![tactic(auto)]
