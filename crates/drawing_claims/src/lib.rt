// What is true of a lawful route that is drawn, and so of each that a search answers: theorems alone, no code. See specs/.
#![tactic(auto)]
