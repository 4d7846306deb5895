// Two units that share pattern tables and line buffers: what is true of them. No function: the definitions stand in specs/, the theorems in proofs/.
#![tactic(auto)]
