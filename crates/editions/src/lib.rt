#![tactic(auto)]

// Document 02, M-113: what the first edition of lines answers to the lines of the second: no code.
