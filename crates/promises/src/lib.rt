// What is promised of every life of a map.
#![tactic(auto)]

ghost use Rattle.promises.specs.Histories.{EveryPromiseIsKept};

pub fn every_promise_is_kept_in_every_history()
    ensures { EveryPromiseIsKept }
{}
