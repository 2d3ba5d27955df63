// What is told of a search that found no route is so: definitions and theorems alone, no code. See specs/.
#![tactic(auto)]
