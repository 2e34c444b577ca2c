// Document 01's "Sixteen to check by hand", as one table that the checker computes: specs/Sixteen.antt. There is no code.
#![tactic(auto)]
