// Facts that several crates cite; all of them stand in specs/.
#![tactic(auto)]
