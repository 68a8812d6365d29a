// The queues of one flow alone, and how long its packets wait: definitions and laws, nothing to call.
#![tactic(auto)]
