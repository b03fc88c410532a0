//! Definitions of what edits make of nodes and trees, with the laws that trees are edited by. There is no code here.
#![tactic(auto)]
