//! A program that tries to prove that a program on a board has a given property for all inputs. It reads a question
//! from standard input and writes the answer to standard output.
#![tactic(auto)]

use mcs_prove::{Answer, answer_to};
use std::io;
use std::io::Read;
use std::process::ExitCode;

/// The exit status if memory runs out or the answer cannot be written.
const FAILURE_STATUS: u8 = 3;

/// Reads the question from standard input. Returns an empty text if standard input cannot be read or is not valid
/// UTF-8.
fn read_question(rt: &HostRuntime) -> String {
    let mut text = String::new(rt.alloc());
    match rt.reader().read_to_string(&mut text) {
        Ok(_) => text,
        Err(_) => String::new(rt.alloc()),
    }
}

/// Reads the question and prints the answer. Returns the exit status of the answer. If memory runs
/// out, prints `no 90` and returns `FAILURE_STATUS`. Fails if standard output cannot be written.
fn answer_question(rt: &HostRuntime) -> io::Result<u8> {
    let Ok(Answer { text, status }) = answer_to(rt.alloc(), read_question(rt).as_str()) else {
        println!(rt; "no 90")?;
        return Ok(FAILURE_STATUS);
    };
    println!(rt; "{text}")?;
    Ok(status)
}

fn main(rt: HostRuntime) -> ExitCode {
    ExitCode::from(answer_question(&rt).unwrap_or(FAILURE_STATUS))
}
