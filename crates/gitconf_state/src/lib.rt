//! What a file's state is, what lookups find in it, what an edit changes, and how it is written: definitions and lemmas, no code.
#![tactic(auto)]
