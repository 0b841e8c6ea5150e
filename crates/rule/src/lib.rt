// The reservation rule is mathematics alone: its definitions are in specs/, its laws in proofs/, and crates that stand on this one have the code.
#![tactic(auto)]
