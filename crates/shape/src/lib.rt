#![tactic(auto)]

// The shape of a line: its grammar, the tables made of it and their certificate, and that no line has two meanings. There is no code here: see specs/ and proofs/.
