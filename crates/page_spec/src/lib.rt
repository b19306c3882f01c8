//! Which bytes are the page of a value, and what no text in it can do, without code: for the engine and the machine's rules.
#![tactic(auto)]
