//! The procedure that a file writes.
ghost use Rattle.std.specs.Prelude.{◌≡◌};
ghost use Rattle.files.specs.declared.file.FileFault.TheVariants.{OutOfMemory};
ghost use Rattle.files.specs.File.{Adds, Reads, at_line, procedure_read};
ghost use Rattle.files.specs.Line.{line_read};

use crate::line::{LineFault, read_line};
use crate::scan::Lines;
use procedure::Node;
use std::alloc::{AllocFailed, Global};

/// A line that is no node: its number, counted from 1, and what is wrong with it.
#[derive(Clone, Copy, PartialEq, Eq, Debug)]
pub struct FaultyLine {
    pub number: usize,
    pub fault: LineFault,
}

/// Why a file is not read.
#[derive(Clone, Copy, PartialEq, Eq, Debug)]
pub enum FileFault {
    /// The first line that is no node.
    Line(FaultyLine),
    /// There was no memory for the nodes; nothing is said of the file.
    OutOfMemory,
}

impl<T: Drop> From<AllocFailed<T>> for FileFault {
    ghost from_gives = { λ _ r. r ≡ OutOfMemory };

    fn from(_refused: AllocFailed<T>) -> FileFault {
        FileFault::OutOfMemory
    }
}

/// Adds the node that a line writes, if it writes one, to the nodes of the lines before it.
fn add_line(nodes: &mut Vec<Node>, number: usize, line: &[u8]) -> Result<(), FileFault>
    ensures added { Adds result (at_line number (line_read line.now)) nodes.old.items nodes.new.items }
{
    let read = read_line(line).map_err(|fault| FileFault::Line(FaultyLine { number, fault }))?;
    if let Some(node) = read {
        nodes.push(node)?;
    }
    Ok(())
}

/// The nodes that the lines of the text write, in order, or the first line that is no node.
pub fn read_procedure(heap: Global, text: &[u8]) -> Result<Vec<Node>, FileFault>
    ensures as_written { Reads result (procedure_read text.now) }
{
    let mut nodes = Vec::new(heap);
    for (i, line) in Lines::new(text).enumerate() {
        add_line(&mut nodes, i + 1, line)?;
    }
    Ok(nodes)
}

#[cfg(test)]
mod tests {
    use super::*;
    use std::test::Fail;

    #[test]
    fn files_are_read(rt: HostRuntime) -> Result<(), Fail> {
        let heap = rt.alloc();
        let nodes = read_procedure(heap, b"# two\n30 17 0 1 0 0 0 0\r\n\n20 0 0 0 0 0 0 -9")?;
        assert!(rt; nodes.len() == 2);
        assert_eq!(rt; (nodes[0].name, nodes[1].kind, nodes[1].hi), (17, 20, -9));
        match read_procedure(
            heap,
            b"30 17 0 1 0 0 0 0\r\n# the body\n20 0 0 0 0 0 0\n20 x",
        ) {
            Ok(_) => Err(Fail::new("a faulty file is read")),
            Err(fault) => {
                let told = format!(in heap; "{fault}")?;
                assert_eq!(rt;
                    told.as_str(),
                    "line 3: number 8 (hi) is missing: write eight numbers, kind name a b c next lo hi"
                );
                Ok(())
            }
        }
    }
}
