//! The check of a whole procedure.
ghost use Rattle.std.specs.Prelude.{◌≡◌, ◌↔◌, [], length, Ok, Err};
ghost use Rattle.checker.specs.Cost.{exact, held};
ghost use Rattle.checker.specs.Exactly.{Passes};
ghost use Rattle.checker.specs.Region.{opened};
ghost use Rattle.checker.specs.Rightly.{RefusedRightly};
ghost use Rattle.checker.specs.Walk.{procedure as walked, judged, checked};

use crate::answer::Sheet;
use crate::names::Declaration;
use crate::open_declarations::OpenDeclarations;
use crate::statements::walk_region;
use procedure::limits::{LAST_PREDEFINED_NAME, MAX_STEPS};
use procedure::table::node_at;
use procedure::{Node, Reason, Refusal, demand, is_bulky, test_form};

/// Walks the whole procedure, with costs held just above the limit.
fn walk_procedure(
    nodes: &[Node],
    left: u16,
    declared: &mut OpenDeclarations,
) -> Result<Sheet, Refusal>
    requires none { opened declared.old ≡ [] }
    ensures meant { result ≡ walked held left nodes.now }
    ensures closed { opened declared.new ≡ [] }
{
    let node = node_at(nodes, 0);
    let inside = walk_region(nodes, node.a, node.b, left, declared)?;
    Ok(inside.after(1))
}

/// The sheet of the procedure, or its first fault on the walk, or that it is overlong.
#[tactic(auto, using(crate::proofs::Capping::capping))]
fn judge(nodes: &[Node], left: u16, declared: &mut OpenDeclarations) -> Result<Sheet, Refusal>
    requires none { opened declared.old ≡ [] }
    ensures judged { result ≡ judged (walked exact left nodes.now) }
{
    let sheet = walk_procedure(nodes, left, declared)?;
    demand(sheet.ceiling <= MAX_STEPS, Reason::Overlong, 0)?;
    Ok(sheet)
}

/// The sheet of the procedure, or why it is refused; `places` is working memory.
pub fn check(nodes: &[Node], places: &mut [Declaration]) -> Result<Sheet, Refusal>
    ensures checked { result ≡ checked nodes.now (length places.old) }
    ensures exactly_allowed { (s : Sheet) → (result ≡ Ok s) ↔ Passes nodes.now (length places.old) s }
    ensures refused_rightly { (e : Refusal) → (result ≡ Err e) ↔ RefusedRightly nodes.now (length places.old) e }
{
    demand(!is_bulky(nodes), Reason::Bulky, 0)?;
    let mut declared = OpenDeclarations::over(places).ok_or(Reason::Short.at(0))?;
    test_form(nodes)?;
    demand(
        LAST_PREDEFINED_NAME < node_at(nodes, 0).name,
        Reason::Taken,
        0,
    )?;
    judge(nodes, nodes.len() as u16, &mut declared)
}
