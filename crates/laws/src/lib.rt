// What every proof above shares: from tests to equations, one answer for one contract, and
// 'written over, the rest unchanged'. No code of its own, and no rule of the paper.
#![tactic(auto)]
