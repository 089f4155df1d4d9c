//! Files of worked cases, one after another: a line `case` with what is shown, and then the lines of a procedure file.
//!
//! What a line of such a file says is promised. What is read and printed is not: the programs that report on cases are run, and
//! what they print is compared.
#![tactic(auto)]

ghost use Rattle.cases.specs.Cases.{Says};

use files::{LineFault, read_line};
use procedure::Node;
use std::rt::Files;
use std::{fs, io};

/// What a line of a file of cases says.
#[derive(Clone, Copy, PartialEq, Eq, Debug)]
pub enum CaseLine<'a> {
    /// A case begins, which shows this.
    Begins(&'a str),
    /// What `read_line` reads of it.
    Holds(Result<Option<Node>, LineFault>),
}

/// What a line of a file of cases says.
pub fn read_case_line(line: &str) -> CaseLine<'_>
    ensures as_written { Says result line.now }
{
    match line.strip_prefix("case ") {
        Some(shown) => CaseLine::Begins(shown),
        None => CaseLine::Holds(read_line(line.as_bytes())),
    }
}

/// What is told of each case. A trait and no closure, since a closure may ask something of those who call it.
pub trait Report {
    /// Prints the report on a case, which shows this and has these nodes.
    fn report(&mut self, shown: &str, nodes: &[Node]) -> io::Result<()>;
}

/// Reports on each case of the file, by what it shows and its nodes; one that shows nothing is passed over. A line that is no node
/// is told beneath its case.
pub fn report_cases(
    rt: &(impl Files + Print + AllocGlobal),
    path: &str,
    reporter: &mut impl Report,
) -> io::Result<()> {
    let text = fs::read_to_string(rt, path)?;
    let mut nodes = Vec::new(rt.alloc());
    let mut shown = "";
    for line in text.as_str().lines() {
        match read_case_line(line) {
            CaseLine::Begins(next) => {
                if !shown.is_empty() {
                    reporter.report(shown, nodes.as_slice())?;
                }
                nodes.clear();
                shown = next;
            }
            CaseLine::Holds(Ok(Some(node))) => nodes.push(node)?,
            CaseLine::Holds(Ok(None)) => {}
            CaseLine::Holds(Err(fault)) => println!(rt; "{shown}: {fault}")?,
        }
    }
    if !shown.is_empty() {
        reporter.report(shown, nodes.as_slice())?;
    }
    Ok(())
}
