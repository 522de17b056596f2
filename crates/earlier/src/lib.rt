// Bids of three numbers: the definitions as they stood, word for word, and the theorem that a book of theirs, read with hundredths 0, has the accepted
// amounts that it had. The definitions and the statement stand in specs/, the theorem in proofs/. Nothing here is used by the unit.
#![tactic(auto)]
