//! Worked examples of the form test: each rule broken alone, and both ends of what its fields may hold.
//!
//! The file form.txt has cases one after another: a line `case` with what is shown, and then the lines of a procedure file. The
//! program prints for each the rule that is broken and the node, or how many nodes are formed, and is held to what it should
//! print.
#![tactic(auto)]

use cases::{Report, report_cases};
use procedure::{FormFault, Node, find_form_fault};
use std::io;

fn main(rt: HostRuntime) -> io::Result<()> {
    report_cases(&rt, "form.txt", &mut FormTest { rt: &rt })
}

/// Tells what the form test finds.
#[derive(Drop)]
struct FormTest<'a> {
    rt: &'a HostRuntime,
}

impl Report for FormTest<'_> {
    fn report(&mut self, shown: &str, nodes: &[Node]) -> io::Result<()> {
        let rt = self.rt;
        match find_form_fault(nodes) {
            None => {
                let count = nodes.len();
                println!(rt; "{shown}: formed {count}")
            }
            Some(FormFault::Bulky) => println!(rt; "{shown}: bulky 0"),
            Some(FormFault::Broken(rule, node)) => {
                let word = rule.word();
                println!(rt; "{shown}: {word} {node}")
            }
        }
    }
}
