//! Grammars as data: what a grammar derives, how it is read with one token of lookahead, and where a list of tokens goes wrong.
//!
//! The crate has no code, and knows no token of any language. `specs/` holds the definitions that the contracts of a parser cite,
//! and `proofs/` the laws that hold of every grammar in which one token decides and everything that has begun can be ended:
//! what is derived is read (`complete`); what is read is derived, and does not depend on what stands behind the next token
//! (`tells`); what has begun can be ended (`can_end`); the tokens are derived, or they go wrong where reading stops
//! (`outcome`); and they go wrong at one place alone (`one_place`).
#![tactic(auto)]
