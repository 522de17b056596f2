// A host's walk through a plan, one call of the writer after another: where it stops and what it has sent. The definitions stand in specs/, the theorems in
// proofs/.
#![tactic(auto)]
