//! What a store over a disk keeps, and the maps that stand on its disk: definitions and laws.
#![tactic(auto)]
