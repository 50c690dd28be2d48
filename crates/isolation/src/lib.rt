// Two connectors over one lens, call by call: demand 3 for each, and that neither hangs on the other. No code of its own.
#![tactic(auto)]
