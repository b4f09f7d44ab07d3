//! Reads bytes and writes them as rows, one line a row.
//!
//! `ga_rows [dec|hex|back|sum|last] [1|2|4|8|16]` reads standard input to its end. Each whole row
//! of so many bytes is a line: of their decimal values, with `hex` of their lower hex digits, with
//! `back` of the decimal values from the last to the first, or with `sum` of their sum. With `last`
//! the lines are those of `dec`, from the last row to the first. Bytes that fill no row stand in a
//! last line that begins with `rest`. No words mean `dec 4`.
#![tactic(auto)]

mod arguments;
mod buffer;
mod input;
mod output;
mod program;
mod status;
#[cfg(test)]
mod tests;

pub use arguments::{Mode, Width, parse_words};
pub use output::rows;
pub use program::{run, run_listed};
pub use status::Status;
use std::process::ExitCode;
use std::{env, io};

fn main(rt: HostRuntime) -> ExitCode {
    run_listed(
        rt.alloc(),
        env::args(&rt),
        &mut rt.reader(),
        &mut io::writer(&rt),
        &mut rt.stderr(),
    )
}
