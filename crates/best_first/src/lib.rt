// The defined search over any graph, ways, and the third demand: definitions and theorems alone, no code. See specs/.
#![tactic(auto)]
