// The figures that document 01 marks with a star, as one table proved by one statement. No code of its own.
#![tactic(auto)]
