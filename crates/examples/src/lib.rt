// The worked examples of document 01, and of document 02's hundredths, proved from the definitions in one statement, which stands in specs/; the theorems
// stand in proofs/.
#![tactic(auto)]
