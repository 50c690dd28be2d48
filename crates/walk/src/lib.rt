// The port's states walk together with the paper's machine, call by call. No code of its own.
#![tactic(auto)]
