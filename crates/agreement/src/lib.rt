// The group theorems are in specs/. The crate has no code of its own.
#![tactic(auto)]
