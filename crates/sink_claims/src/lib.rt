// What is told of a sink that could not be reached is so: definitions and theorems alone, no code. See specs/.
#![tactic(auto)]
