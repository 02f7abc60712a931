// Objects built by a definition from numbers: specs alone.
#![tactic(auto)]
