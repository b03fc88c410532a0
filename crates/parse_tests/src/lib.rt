//! Texts of SQL with their tokens, their lexemes, and the statement that each is or the place where it goes wrong, all worked by hand. They
//! stand apart, since a crate with tests of its own is proved twice.
#![tactic(auto)]

#[cfg(test)]
mod built;
#[cfg(test)]
mod lexemes;
#[cfg(test)]
mod note;
#[cfg(test)]
mod pieces;
#[cfg(test)]
mod rows;
#[cfg(test)]
mod statements;
#[cfg(test)]
mod texts;
#[cfg(test)]
mod tokens;
#[cfg(test)]
mod words;
