// Repeaters over any branches: definitions and theorems alone, no code. See specs/.
#![tactic(auto)]
