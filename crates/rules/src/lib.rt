// What the commands do and answer, as definitions: document 01's table, and the port as an instance of
// the paper's machine. No code of its own.
#![tactic(auto)]
