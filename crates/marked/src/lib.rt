// The marked readings of document 01 are one table, with the claim that each figure is the printed one: specs/Readings.antt.
#![tactic(auto)]
