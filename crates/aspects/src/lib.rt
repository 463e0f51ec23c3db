// What signals show, as definitions, and the school's first rule over every sequence of events. No code.
#![tactic(auto)]
