// No code here: the file to judge by and its cases are in specs/, their proof in proofs/.
#![tactic(auto)]
