// The packet layout as definitions. The code that reads by them is not written yet.
#![tactic(auto)]
