// Reading text line by line: lines of at most 80 bytes, what follows a key, parts at a byte, decimal numbers.
#![tactic(auto)]

pub mod cut;
pub mod decimal;
pub mod header;
pub mod line;
pub mod reader;
#[cfg(test)]
mod tests;

pub use cut::split_at_byte;
pub use decimal::number;
pub use header::header_number;
pub use line::{BadLine, Line, Reason};
pub use reader::Reader;
