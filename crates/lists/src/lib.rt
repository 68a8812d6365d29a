// Searches, sums, joined and filled lists, with their laws; there is nothing to call.
#![tactic(auto)]
