// No code: the laws of the definition `step`, over all replicas, rooms and calls.
#![tactic(auto)]
