// Lists of calls on plan P that meet the premises of demand 3, and its bounds exactly. There is nothing to call here.
#![tactic(auto)]
