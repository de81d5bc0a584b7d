// No code: the definitions that every crate's contracts and theorems share, and their laws.
#![tactic(auto)]
