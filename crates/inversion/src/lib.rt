// The linear part of a map, and inversion of origin-fixing maps.
#![tactic(auto)]
