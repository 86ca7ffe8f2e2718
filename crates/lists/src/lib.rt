// Laws on lists that know nothing of the format: the definitions stand in specs/, the laws in proofs/. There is no code here.
#![tactic(auto)]
