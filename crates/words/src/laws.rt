// Laws of the definitions. Each function's contract is the law that its name says.
ghost use Rattle.words.specs.Faults.{OneRefusal, RefusedOrLaidOut};
ghost use Rattle.words.specs.Refusals.{ToldApart};

pub fn number_layer_and_place_tell_refusals_apart()
    ensures { ToldApart }
{}

pub fn words_earn_one_refusal_or_none()
    ensures one { OneRefusal }
    ensures none { RefusedOrLaidOut }
{}
