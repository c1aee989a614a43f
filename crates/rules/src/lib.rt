// The rules of the broker. They stand in specs/, their laws in proofs/: this crate has no code of its own.
#![tactic(auto)]
