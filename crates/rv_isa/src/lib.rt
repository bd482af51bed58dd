//! The instructions of RV32IM with CSRRW, CSRRS, FENCE, ECALL and EBREAK, and their words.
//!
//! The table of the RISC-V unprivileged manual stands in `specs/Table.antt`, an instruction's word in
//! `specs/Word.antt`, and a word's instruction in `specs/Decode.antt`. Read `word::decode` first.
#![tactic(auto)]

mod bits;
mod find;
pub mod instr;
pub mod op;
mod row;
pub mod word;
