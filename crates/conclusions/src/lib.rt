// What a C host may conclude from each answer, as theorems over the relations that the contracts of crate hourheron name. No code of its own.
#![tactic(auto)]
