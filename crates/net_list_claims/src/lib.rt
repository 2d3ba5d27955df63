// What holds of several nets routed one after another and laid into one room: definitions and theorems alone, no code. See specs/.
#![tactic(auto)]
