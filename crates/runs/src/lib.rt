// What is promised of runs is mathematics alone: its words are in specs/, their proofs in proofs/, and the code that runs is in the crate `slots`.
#![tactic(auto)]
