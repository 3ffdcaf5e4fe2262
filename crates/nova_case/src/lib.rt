//! Cases as data: files of steps with the answers that are wanted, tried by a program.
//!
//! A line of a file begins with its mark and a space: `=` a case and its name, `$` a step of it,
//! `<` a line of the step's input (`<<` the last one, without its newline; `!` an input that can't
//! be read), `>` a line of the answer that is wanted, `?` the status of the program, `#` a remark.
//! Empty lines are skipped. In inputs and answers `{09}` is a byte, and `{'ab'*3}` a text three
//! times.
//!
//! A program that tries cases makes a `Bench`, calls `try_files`, and lists its files in `args`
//! and the counts in `stdout`.
#![tactic(auto)]

mod files;
mod step;
mod text;
mod trial;

pub use files::try_files;
pub use step::{Bench, Step};
pub use text::bytes_of;
