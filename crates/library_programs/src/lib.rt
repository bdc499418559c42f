// The programs of the library as values of typed programs: what the text of each denotes.
#![tactic(auto)]
