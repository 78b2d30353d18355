//! The assembly language of the 4004: its mnemonics and the errors of its lines. The definitions in
//! `specs/` give the bytes to which a source text assembles, and the text of each instruction.
#![tactic(auto)]

pub mod fault;
pub mod mnemonic;
pub mod spelling;
pub mod survey;
