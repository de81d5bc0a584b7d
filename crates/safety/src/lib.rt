// One slot, one batch, for good: the proof is in specs/. The crate has no code of its own.
#![tactic(auto)]
