//! Worked examples of the check, some of them shown of its definition.
//!
//! The file check.txt has cases one after another: a line `case` with what is shown, and then the lines of a procedure file. The
//! program prints for each the sheet or the refusal, and is held to what it should print.
#![tactic(auto)]

mod shown;

use cases::{Report, report_cases};
use checker::{Declaration, check};
use procedure::Node;
use procedure::limits::MAX_OPEN;
use std::io;

fn main(rt: HostRuntime) -> io::Result<()> {
    shown::check_examples_stand();
    report_cases(&rt, "check.txt", &mut Check { rt: &rt })
}

/// Tells what the check answers.
#[derive(Drop)]
struct Check<'a> {
    rt: &'a HostRuntime,
}

impl Report for Check<'_> {
    fn report(&mut self, shown: &str, nodes: &[Node]) -> io::Result<()> {
        let rt = self.rt;
        let mut places = [Declaration::BLANK; MAX_OPEN];
        match check(nodes, &mut places) {
            Ok(sheet) => println!(rt; "{shown}: passed: {sheet}"),
            Err(refusal) => println!(rt; "{shown}: refused: {refusal}"),
        }
    }
}
