// How a row's jobs were dosed is mathematics alone: its words are in specs/, their proofs in proofs/, and the code that counts is in the crate `bagreport`.
#![tactic(auto)]
