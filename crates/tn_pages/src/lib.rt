//! Memory in pages of 256 bytes. Each page is made when a byte of it is written first, of a page that a stock holds, so that
//! a write takes no memory; a page that is not made reads as zeros.
//!
//! What callers see of a memory stands in `specs/Paged.antt`. Read `PagedMemory::write` first.
#![tactic(auto)]

pub mod laws;
pub mod memory;
pub mod numbers;
mod page;
pub mod stock;
