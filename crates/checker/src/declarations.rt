//! The walk over declarations.
ghost use Rattle.std.specs.Prelude.{◌≡◌, ◌≤◌, length, IfOk};
ghost use Rattle.stack.specs.Tables.{newest};
ghost use Rattle.checker.specs.Region.{opened, Grown};
ghost use Rattle.checker.specs.Walk.{mark_meaning, initial, is_constant, declaration_cost, declaration, declarations, with_cost};

use crate::names::{Declaration, Meaning, meaning_inside};
use crate::open_declarations::OpenDeclarations;
use crate::region::is_taken;
use crate::typing::{mark_type, type_of};
use procedure::kind::DeclarationKind;
use procedure::limits::MAX_LEVELS;
use procedure::table::{Standing, node_at, standing_at};
use procedure::types::Type;
use procedure::{Node, Reason, Refusal, demand};

/// What the name in the field lo means, inside the declaration of `own`.
fn mark_meaning(declared: &[Declaration], lo: i32, own: u16) -> Option<Meaning>
    ensures meant { result ≡ mark_meaning lo own (newest (length declared.now) declared.now) }
{
    let mark = u16::try_from(lo).ok()?;
    meaning_inside(declared, Some(own), mark)
}

/// Tests the initial value of the declaration at node `n`, whose mark denotes a type.
fn check_initial(
    kind: DeclarationKind,
    nodes: &[Node],
    declared: &[Declaration],
    marked: Type,
    n: u16,
) -> Result<(), Refusal>
    ensures tested { result ≡ initial kind nodes.now (newest (length declared.now) declared.now) marked n }
{
    match kind {
        DeclarationKind::Parameter => Ok(()),
        DeclarationKind::Variable | DeclarationKind::Constant => {
            let node = node_at(nodes, n);
            let given = type_of(nodes, declared, Some(node.name), node.a, MAX_LEVELS)?;
            demand(given == marked, Reason::Mismatched, n)
        }
    }
}

fn is_constant(kind: DeclarationKind) -> bool
    ensures told { result ≡ is_constant kind }
{
    kind == DeclarationKind::Constant
}

fn cost_of(kind: DeclarationKind) -> u64
    ensures told { result ≡ declaration_cost kind }
    ensures small { result ≤ 1 }
{
    match kind {
        DeclarationKind::Parameter => 0,
        DeclarationKind::Variable | DeclarationKind::Constant => 1,
    }
}

/// What the declaration at node `n` opens, in a region that began with `base` declarations open.
fn read_declaration(
    kind: DeclarationKind,
    nodes: &[Node],
    base: usize,
    declared: &OpenDeclarations,
    n: u16,
) -> Result<Declaration, Refusal>
    requires within { base ≤ length (opened declared.now) }
    ensures read { result ≡ declaration kind nodes.now base (opened declared.now) n }
{
    let node = node_at(nodes, n);
    let declared = declared.items();
    demand(!is_taken(declared, base, node.name), Reason::Taken, n)?;
    let of_type = mark_type(mark_meaning(declared, node.lo, node.name), n)?;
    check_initial(kind, nodes, declared, of_type, n)?;
    Ok(Declaration {
        name: node.name,
        of_type,
        constant: is_constant(kind),
    })
}

/// Opens a list of declarations, in a region that began with `base` declarations open, and gives its cost.
#[tactic(auto, using(crate::proofs::Unrolled::declares_unrolled, stack::proofs::Newest::newest_laws))]
pub fn walk_declarations(
    nodes: &[Node],
    base: usize,
    n: u16,
    left: u16,
    declared: &mut OpenDeclarations,
) -> Result<u64, Refusal>
    requires within { base ≤ length (opened declared.old) }
    ensures meant { with_cost result (opened declared.new) ≡ declarations left nodes.now base (opened declared.old) n }
    ensures small { IfOk result (λ c. c ≤ left) }
    ensures grown { Grown declared.old declared.new }
{
    let mut at = n;
    let mut cost = 0;
    // Counts the nodes that are left, as the definition does.
    for _rest in (0..left).rev() {
        match standing_at(nodes, at) {
            Standing::End => return Ok(cost),
            Standing::Declaration(kind) => {
                let declaration = read_declaration(kind, nodes, base, declared, at)?;
                declared.put(declaration, at)?;
                cost += cost_of(kind);
                at = node_at(nodes, at).next;
            }
            _ => break,
        }
    }
    Err(Refusal {
        reason: Reason::Misshapen,
        node: at,
    })
}
