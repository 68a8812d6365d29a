// What holds of a host's calls of the library, one by one and in lists of any length. There is nothing to call here.
#![tactic(auto)]
