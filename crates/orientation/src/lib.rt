// Settings of flips and quarter turns, composed: what is defined and what holds (02, request 8). It has no code.
#![tactic(auto)]
