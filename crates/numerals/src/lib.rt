// What a token spells as a value, how it is read, and that these agree: definitions and theorems, no code.
#![tactic(auto)]
