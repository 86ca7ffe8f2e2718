// The theorems over the definitions stand in proofs/, restated in proofs/Demands.antt. There is no code here.
#![tactic(auto)]
