// What a session requires of the code that it runs. Definitions alone.
#![tactic(auto)]
