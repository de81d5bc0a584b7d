// No code: what "Paxos Made Simple" defines of voting, and theorems about the definition of a call, `step`.
#![tactic(auto)]
