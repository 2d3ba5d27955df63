// What the plain engine's answers mean, said of rooms, kinds, costs and ends, and how they compare with the search's: theorems
// alone, no code. See specs/.
#![tactic(auto)]
