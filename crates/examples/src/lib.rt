// The marked examples of the document as one table, and the theorem that every row of it holds. No code.
#![tactic(auto)]
