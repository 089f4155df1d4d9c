//! The program of a station: what an engineer asks at the command line.
//!
//! It is thin. Files are read by `files`, procedures are tested by `procedure`, and each of these promises what it answers;
//! here stand the commands and the lines that they print. What goes wrong is a `Failure`, told in one place, and ends with
//! status 1.
#![tactic(auto)]

mod calibrate;
mod failure;
mod report;
#[cfg(test)]
mod tests;
mod verb;

use calibrate::run_calibrate;
use failure::Failure;
use files::read_procedure;
use procedure::Node;
use report::{report_check, report_form};
use std::process::ExitCode;
use std::{env, fs, io};
use verb::Verb;

const USAGE: &str = "\
usage: station COMMAND

  station form FILE            test whether a procedure file has the form of a procedure
  station check FILE           check a procedure file, and tell its sheet
  station calibrate A H K [N]  print the numbers that wait at a calibrator
  station help                 print this text

A procedure file has one node a line, in node order: the eight decimal numbers
kind name a b c next lo hi, separated by blanks. Empty lines, and what follows
# on a line, are passed over.

form prints 'formed: N nodes', or 'refused: NUMBER WORD at node N' with what that
means and the rule that is broken.

check prints 'passed: ceiling C, rows R, frames F', the sheet of the procedure: the
steps, rows and frames that a run is to be given; or the refusal and the kind of the
node told.

calibrate prints 'waiting: K' and the first N numbers (20 where N is not given) of a
square wave of amplitude A, 0 to 8388607, half period H, 1 to 10000, and K numbers,
0 to 1000000.

A refusal or an error ends with status 1.";

fn main(rt: HostRuntime) -> ExitCode {
    let Ok(words) = command_line(&rt) else {
        return ExitCode::FAILURE;
    };
    match run(&rt, words.as_slice()) {
        Ok(()) => ExitCode::SUCCESS,
        Err(failure) => {
            // A failure that cannot be told ends with the same status.
            let _ = tell(&rt, failure);
            ExitCode::FAILURE
        }
    }
}

/// The words behind the program's name.
fn command_line(rt: &HostRuntime) -> io::Result<Vec<String>> {
    let words = env::args(rt)?.skip(1).collect(rt.alloc())?;
    Ok(words)
}

/// Tells why the program does not succeed: a refusal is an answer, and is printed as answers are.
fn tell(rt: &HostRuntime, failure: Failure) -> io::Result<()> {
    match failure {
        Failure::NotFormed(_) | Failure::NotPassed(_) | Failure::Unset(_) => rt.println(failure),
        // Where reading the command line or printing fails, nothing is printed.
        Failure::Io(_) => Ok(()),
        _ => rt.eprintln(failure),
    }
}

/// Does what the command line asks.
fn run<'a>(rt: &HostRuntime, words: &'a [String]) -> Result<(), Failure<'a>> {
    let [word, operands @ ..] = words else {
        rt.println(USAGE)?;
        return Ok(());
    };
    let word = word.as_str();
    let verb = word
        .parse::<Verb>()
        .and_then(|verb| verb.take(operands.len()))
        .map_err(|fault| Failure::Usage(word, fault))?;
    match (verb, operands) {
        (Verb::Help, _) => {
            rt.println(USAGE)?;
            Ok(())
        }
        (Verb::Form, [path]) => run_form(rt, path.as_str()),
        (Verb::Check, [path]) => run_check(rt, path.as_str()),
        (Verb::Calibrate, [amplitude, half_period, count, more @ ..]) => run_calibrate(
            rt,
            [amplitude, half_period, count],
            more,
        ),
        // `take` lets no other number of words through.
        _ => unreachable!(),
    }
}

/// The procedure in a file.
fn read_file<'a>(rt: &HostRuntime, path: &'a str) -> Result<Vec<Node>, Failure<'a>> {
    let text = fs::read(rt, path).map_err(|error| Failure::Unread(path, error))?;
    read_procedure(rt.alloc(), text.as_slice()).map_err(|fault| Failure::Faulty(path, fault))
}

/// `station form FILE`.
fn run_form<'a>(rt: &HostRuntime, path: &'a str) -> Result<(), Failure<'a>> {
    let nodes = read_file(rt, path)?;
    let formed = report_form(nodes.as_slice())?;
    println!(rt; "{formed}")?;
    Ok(())
}

/// `station check FILE`. It stands beside `run_form`: one function for both, generic over the report, would have no proof.
fn run_check<'a>(rt: &HostRuntime, path: &'a str) -> Result<(), Failure<'a>> {
    let nodes = read_file(rt, path)?;
    let passed = report_check(nodes.as_slice())?;
    println!(rt; "{passed}")?;
    Ok(())
}
