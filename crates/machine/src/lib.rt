// The paper's port, slot by slot, abstract in what its messages say, and the promise over every
// order of events that holds of each port made from it. No code of its own.
#![tactic(auto)]
