// What the operations and the functions for hosts promise, tied to the definitions that claims cite; there is nothing to call.
#![tactic(auto)]
