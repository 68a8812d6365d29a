// What live flows keep on the links of their routes, and G, as definitions and laws. There is nothing to call here.
#![tactic(auto)]
