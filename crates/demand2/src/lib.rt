// Demand 2 as theorems over the definitions: the two forms of a record, the fixed data, the units. No
// code of its own.
#![tactic(auto)]
