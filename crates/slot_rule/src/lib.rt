// The slot rule as definitions and laws, for every factor from 2 up: bases, periods, offsets, and what a call of it answers. There is nothing to call here.
#![tactic(auto)]
