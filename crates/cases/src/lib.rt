// Document 01's worked examples are one proved statement over one table of cases: the table is in specs/, the proof in proofs/, and there is no code.
#![tactic(auto)]
