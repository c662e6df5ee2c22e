// The front page: the three demands as theorems about the calls. There is no code here, only proofs/Demands.antt.

#![tactic(auto)]
