//! Costs in steps, held just above the limit.
ghost use Rattle.std.specs.Prelude.{◌≡◌, ◌+◌, ◌*◌, ◌^◌, ◌<◌, ◌≤◌};
ghost use Rattle.checker.specs.Answer.{sheet};
ghost use Rattle.checker.specs.Cost.{turns_of, held, in_turn};

use crate::answer::Sheet;
use procedure::Node;
use procedure::limits::MAX_STEPS;

/// Just above the limit.
const MOST_HELD: u64 = MAX_STEPS + 1;

/// How often a FOR goes through its body.
pub fn turns_of(node: Node) -> u64
    ensures value { result ≡ turns_of node }
    ensures bound { result ≤ 2 ^ 32 }
{
    if node.lo > node.hi {
        0
    } else {
        (i64::from(node.hi) - i64::from(node.lo) + 1) as u64
    }
}

/// A cost, held just above the limit.
fn hold(cost: u64) -> u64
    ensures held { result ≡ held cost }
{
    cost.min(MOST_HELD)
}

impl Sheet {
    /// The sheet of what is done in turn.
    pub(crate) fn then(self, rest: Sheet) -> Sheet
        ensures added { result ≡ in_turn held self rest }
    {
        Sheet {
            ceiling: hold(self.ceiling.saturating_add(rest.ceiling)),
            rows: self.rows.max(rest.rows),
            frames: self.frames.max(rest.frames),
        }
    }

    /// The same after so many steps.
    pub(crate) fn after(self, steps: u64) -> Sheet
        ensures added { result ≡ sheet (held (steps + self.ceiling)) self.rows self.frames }
    {
        Sheet {
            ceiling: hold(self.ceiling.saturating_add(steps)),
            ..self
        }
    }

    /// The same after so many steps, in a frame of its own.
    pub(crate) fn framed(self, steps: u64) -> Sheet
        requires few { self.frames < 65535 }
        ensures framed { result ≡ sheet (held (steps + self.ceiling)) self.rows (self.frames + 1) }
    {
        Sheet {
            frames: self.frames + 1,
            ..self.after(steps)
        }
    }

    /// The same so many times, with a step each time.
    pub(crate) fn repeated(self, turns: u64) -> Sheet
        requires turns { turns ≤ 2 ^ 32 }
        requires body { self.ceiling ≤ 1000000001 }
        ensures repeated { result ≡ sheet (held (turns * (self.ceiling + 1))) self.rows self.frames }
    {
        Sheet {
            ceiling: hold(turns * (self.ceiling + 1)),
            ..self
        }
    }
}
