//! The walk over statements.
//!
//! The nodes stand beside the open declarations: they are only read, and in one struct with them each contract would have to say
//! that they stay.
ghost use Rattle.std.specs.Prelude.{◌≡◌, ◌+◌, ◌<◌, length};
ghost use Rattle.procedure.specs.Table.{node};
ghost use Rattle.checker.specs.Cost.{held};
ghost use Rattle.checker.specs.Names.{means};
ghost use Rattle.checker.specs.Region.{opened, Left};
ghost use Rattle.checker.specs.Typing.{target_type};
ghost use Rattle.checker.specs.Walk.{declarations, type_at, simple, assignment, get_statement, put_statement, if_statement, for_statement, region, block_statement, statement as stated, statements, Small};

use crate::answer::Sheet;
use crate::cost::turns_of;
use crate::declarations::walk_declarations;
use crate::names::{Declaration, meaning_of};
use crate::open_declarations::OpenDeclarations;
use crate::region::RegionGuard;
use crate::typing::{target_type, type_of};
use procedure::kind::StatementKind;
use procedure::limits::MAX_LEVELS;
use procedure::table::{Standing, node_at, standing_at};
use procedure::types::Type;
use procedure::{Node, Reason, Refusal, demand};

/// The type of an expression of a statement.
fn type_at(nodes: &[Node], declared: &OpenDeclarations, n: u16) -> Result<Type, Refusal>
    ensures typed { result ≡ type_at nodes.now (opened declared.now) n }
{
    type_of(nodes, declared.items(), None, n, MAX_LEVELS)
}

/// The type of the target of a statement.
fn target_at(nodes: &[Node], declared: &OpenDeclarations, n: u16) -> Result<Type, Refusal>
    ensures typed { result ≡ target_type (means (opened declared.now) (node nodes.now n).name) n }
{
    target_type(meaning_of(declared.items(), node_at(nodes, n).name), n)
}

/// The sheet of a statement without lists of its own.
fn simple_sheet(declared: &OpenDeclarations) -> Sheet
    ensures counted { result ≡ simple (opened declared.now) }
{
    Sheet {
        ceiling: 1,
        rows: declared.len() as u16,
        frames: 0,
    }
}

fn check_assignment(nodes: &[Node], declared: &OpenDeclarations, n: u16) -> Result<Sheet, Refusal>
    ensures checked { result ≡ assignment nodes.now (opened declared.now) n }
{
    let target = target_at(nodes, declared, n)?;
    let given = type_at(nodes, declared, node_at(nodes, n).a)?;
    demand(given == target, Reason::Mismatched, n)?;
    Ok(simple_sheet(declared))
}

fn check_get(nodes: &[Node], declared: &OpenDeclarations, n: u16) -> Result<Sheet, Refusal>
    ensures checked { result ≡ get_statement nodes.now (opened declared.now) n }
{
    target_at(nodes, declared, n)?;
    Ok(simple_sheet(declared))
}

fn check_put(nodes: &[Node], declared: &OpenDeclarations, n: u16) -> Result<Sheet, Refusal>
    ensures checked { result ≡ put_statement nodes.now (opened declared.now) n }
{
    type_at(nodes, declared, node_at(nodes, n).a)?;
    Ok(simple_sheet(declared))
}

/// Walks a list of statements, of at most `left` nodes in a row.
#[cycle(walk)]
#[tactic(auto, using(crate::proofs::Unrolled::states_unrolled, crate::proofs::InTurn::followed_step))]
fn walk_list(
    nodes: &[Node],
    n: u16,
    left: u16,
    declared: &mut OpenDeclarations,
) -> Result<Sheet, Refusal>
    ensures meant { result ≡ statements held left nodes.now (opened declared.old) n }
    ensures small { Small left result }
    ensures left { Left declared.old declared.new }
{
    let mut at = n;
    let mut sheet = Sheet::default();
    // Counts the nodes that are left, as the definition does.
    for rest in (0..left).rev() {
        match standing_at(nodes, at) {
            Standing::End => {
                sheet.rows = sheet.rows.max(declared.len() as u16);
                return Ok(sheet);
            }
            Standing::Statement(kind) => {
                let one = walk_statement(nodes, at, kind, rest, declared)?;
                sheet = sheet.then(one);
                at = node_at(nodes, at).next;
            }
            _ => break,
        }
    }
    Err(Refusal {
        reason: Reason::Misshapen,
        node: at,
    })
}

/// Walks one statement, without what follows it.
#[cycle(walk)]
fn walk_statement(
    nodes: &[Node],
    n: u16,
    kind: StatementKind,
    left: u16,
    declared: &mut OpenDeclarations,
) -> Result<Sheet, Refusal>
    requires few { left < 65535 }
    ensures meant { result ≡ stated held (statements held left nodes.now) (declarations left nodes.now) kind nodes.now (opened declared.old) n }
    ensures small { Small (left + 1) result }
    ensures left { Left declared.old declared.new }
{
    match kind {
        StatementKind::Null => Ok(simple_sheet(declared)),
        StatementKind::Assignment => check_assignment(nodes, declared, n),
        StatementKind::If => walk_if(nodes, n, left, declared),
        StatementKind::For => walk_for(nodes, n, left, declared),
        StatementKind::Block => walk_block(nodes, n, left, declared),
        StatementKind::Get => check_get(nodes, declared, n),
        StatementKind::Put => check_put(nodes, declared, n),
    }
}

#[cycle(walk)]
fn walk_if(
    nodes: &[Node],
    n: u16,
    left: u16,
    declared: &mut OpenDeclarations,
) -> Result<Sheet, Refusal>
    requires few { left < 65535 }
    ensures meant { result ≡ if_statement held (statements held left nodes.now) nodes.now (opened declared.old) n }
    ensures small { Small (left + 1) result }
    ensures left { Left declared.old declared.new }
{
    let node = node_at(nodes, n);
    let given = type_at(nodes, declared, node.a)?;
    demand(given == Type::Boolean, Reason::Mismatched, n)?;
    let taken = walk_list(nodes, node.b, left, declared)?;
    let other = walk_list(nodes, node.c, left, declared)?;
    Ok(taken.then(other).framed(2))
}

#[cycle(walk)]
fn walk_for(
    nodes: &[Node],
    n: u16,
    left: u16,
    declared: &mut OpenDeclarations,
) -> Result<Sheet, Refusal>
    requires few { left < 65535 }
    ensures meant { result ≡ for_statement held (statements held left nodes.now) nodes.now (opened declared.old) n }
    ensures small { Small (left + 1) result }
    ensures left { Left declared.old declared.new }
{
    let node = node_at(nodes, n);
    let region = RegionGuard {
        entered: declared.len(),
        declared,
    };
    let parameter = Declaration {
        name: node.name,
        of_type: Type::Integer,
        constant: true,
    };
    region.declared.put(parameter, n)?;
    let body = walk_list(nodes, node.a, left, region.declared)?;
    Ok(body.repeated(turns_of(node)).framed(1))
}

#[cycle(walk)]
fn walk_block(
    nodes: &[Node],
    n: u16,
    left: u16,
    declared: &mut OpenDeclarations,
) -> Result<Sheet, Refusal>
    requires few { left < 65535 }
    ensures meant { result ≡ block_statement held (statements held left nodes.now) (declarations left nodes.now) nodes.now (opened declared.old) n }
    ensures small { Small (left + 1) result }
    ensures left { Left declared.old declared.new }
{
    let node = node_at(nodes, n);
    let inside = walk_region(nodes, node.a, node.b, left, declared)?;
    Ok(inside.framed(2))
}

/// Walks a region: the list of declarations at `d`, then the list of statements at `s`.
#[cycle(walk)]
pub fn walk_region(
    nodes: &[Node],
    d: u16,
    s: u16,
    left: u16,
    declared: &mut OpenDeclarations,
) -> Result<Sheet, Refusal>
    ensures meant { result ≡ region held (statements held left nodes.now) (declarations left nodes.now) (opened declared.old) d s }
    ensures small { Small left result }
    ensures left { Left declared.old declared.new }
{
    let region = RegionGuard {
        entered: declared.len(),
        declared,
    };
    let cost = walk_declarations(nodes, region.entered, d, left, region.declared)?;
    let inside = walk_list(nodes, s, left, region.declared)?;
    Ok(inside.after(cost))
}
