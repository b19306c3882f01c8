//! What each operation gives for its operands, without code: for the engine, the machine's rules and the laws of both.
#![tactic(auto)]
