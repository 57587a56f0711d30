// What is promised of whole lists of calls, at the real definitions. It has no code.
#![tactic(auto)]
