//! The form test at both ends of its limits, on tables that are made here.
use crate::report::report_form;
use procedure::{Node, Refusal};
use std::alloc::{AllocError, Global};
use std::test::Fail;

fn summary(heap: Global, nodes: &[Node]) -> Result<String, AllocError> {
    match report_form(nodes) {
        Ok(formed) => {
            let count = formed.nodes;
            format!(in heap; "formed {count}")
        }
        Err(refused) => {
            let Refusal { reason, node } = refused.refusal;
            match refused.detail {
                Some(broken) => {
                    let word = broken.rule.word();
                    format!(in heap; "{word} {node}")
                }
                None => format!(in heap; "{reason} {node}"),
            }
        }
    }
}

fn node(kind: u8, a: u16, b: u16, next: u16, lo: i32) -> Node {
    Node {
        kind,
        name: if kind == 30 { 17 } else { 0 },
        a,
        b,
        c: 0,
        next,
        lo,
        hi: 0,
    }
}

/// A procedure of so many nodes, at least 2, whose statements are a list of nulls.
fn listed(heap: Global, count: u16) -> Result<Vec<Node>, AllocError> {
    let mut nodes = vec![in heap; node(30, 0, 1, 0, 0)]?;
    for next in 2..count {
        nodes.push(node(20, 0, 0, next, 0))?;
    }
    nodes.push(node(20, 0, 0, 0, 0))?;
    Ok(nodes)
}

/// A PUT of an expression of so many levels, at least 1: node 2 is the deepest.
fn deep(heap: Global, levels: u16) -> Result<Vec<Node>, AllocError> {
    let root = levels.saturating_add(1);
    let mut nodes = vec![in heap;
        node(30, 0, 1, 0, 0),
        node(26, root, 0, 0, 0),
        node(1, 0, 0, 0, 0),
    ]?;
    for operand in 2..root {
        nodes.push(node(3, operand, 0, 0, 2))?;
    }
    Ok(nodes)
}

/// Statements that nest to so many levels, at least 1: blocks around a null.
fn nested(heap: Global, levels: u16) -> Result<Vec<Node>, AllocError> {
    let mut nodes = vec![in heap; node(30, 0, 1, 0, 0)]?;
    for inner in 1..levels {
        nodes.push(node(24, 0, inner + 1, 0, 0))?;
    }
    nodes.push(node(20, 0, 0, 0, 0))?;
    Ok(nodes)
}

#[test]
fn both_ends(rt: HostRuntime) -> Result<(), Fail> {
    let heap = rt.alloc();
    let cases = [
        (listed(heap, 2)?, "formed 2"),
        (listed(heap, 1024)?, "formed 1024"),
        (listed(heap, 1025)?, "bulky 0"),
        (deep(heap, 32)?, "formed 34"),
        (deep(heap, 33)?, "shallow 2"),
        (nested(heap, 32)?, "formed 33"),
        (nested(heap, 33)?, "shallow 33"),
    ];
    for (nodes, wanted) in &cases {
        assert_eq!(rt; summary(heap, nodes.as_slice())?.as_str(), *wanted);
    }
    Ok(())
}

#[test]
fn depth_is_asked_last(rt: HostRuntime) -> Result<(), Fail> {
    let heap = rt.alloc();
    let mut nodes = deep(heap, 34)?;
    assert_eq!(rt; summary(heap, nodes.as_slice())?.as_str(), "shallow 2");
    nodes.push(node(20, 0, 0, 0, 0))?;
    assert_eq!(rt; summary(heap, nodes.as_slice())?.as_str(), "named once 36");
    Ok(())
}
