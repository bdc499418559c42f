// The values that are in lines which call functions. Definitions and lemmas; no code.
#![tactic(auto)]
