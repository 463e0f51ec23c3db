// What is proved of the calls for other languages together: call after call, over their own bytes. No code.
#![tactic(auto)]
