//! Tests of the parts on which the bench is built. The expected values for numbers, the opcode
//! table and the processor were worked out manually from the instruction descriptions in Intel's
//! manual. Chips are tested alone. Rigs are tested with part counts that differ from the bench's.
//! The parser of command lines is tested. The tests of the assembler and the disassembler, and most tests of wiring,
//! cover cases that no script can reach.
#![tactic(auto)]

#[cfg(test)]
mod assembler;
#[cfg(test)]
mod boards;
#[cfg(test)]
mod checks;
#[cfg(test)]
mod chips;
#[cfg(test)]
mod code_table;
#[cfg(test)]
mod counts;
#[cfg(test)]
mod disassembler;
#[cfg(test)]
mod lines;
#[cfg(test)]
mod nibbles;
#[cfg(test)]
mod processor;
#[cfg(test)]
mod rigs;
#[cfg(test)]
mod seeded;
#[cfg(test)]
mod state_line;
#[cfg(test)]
mod wiring;
