// No code here: the definitions are in specs/, the laws in proofs/.
#![tactic(auto)]
