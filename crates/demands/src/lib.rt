// The third demand and the sample rooms, said of rooms, kinds, costs and ends: theorems alone, no code. See specs/.
#![tactic(auto)]
