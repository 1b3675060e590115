#![tactic(auto)]

// Document 01's starred lines: no code.
