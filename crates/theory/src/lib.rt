// The best clearing of a book: that there is one, what it is worth, and how to compute it. The definitions stand in specs/, the theorems in specs/ and proofs/.
#![tactic(auto)]
