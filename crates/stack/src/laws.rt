//! The laws of the two views, as promises.
ghost use Rattle.stack.specs.Laws.{NewestIsReversedOldest, AsLongAsHeld, ActsStayWithin, PutAddsNewest, LastPutFirstOff, TakingOffTakesNewest, CutLeavesOldest, ReplaceWritesOne, TopIsNewest, ReadFromEitherEnd, LowerAreKept};

/// The laws of the items, oldest first and newest first, for every table.
pub fn views_hold<T>()
    ensures reversed { NewestIsReversedOldest T }
    ensures lengths { AsLongAsHeld T }
    ensures within { ActsStayWithin T }
    ensures put { PutAddsNewest T }
    ensures order { LastPutFirstOff T }
    ensures taken { TakingOffTakesNewest T }
    ensures cut { CutLeavesOldest T }
    ensures replaced { ReplaceWritesOne T }
    ensures top { TopIsNewest T }
    ensures read { ReadFromEitherEnd T }
    ensures lower { LowerAreKept T }
{}
