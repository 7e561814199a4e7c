// Laws of the definitions. Each function's contract is the law that its name says.
ghost use Rattle.plant.specs.Described.{OnePlant, EveryPlant};
ghost use Rattle.plant.specs.Ranges.{OneRangeRefusal, RefusedOrFitting};

pub fn words_describe_at_most_one_plant()
    ensures { OnePlant }
{}

pub fn every_plant_in_bounds_has_words()
    ensures { EveryPlant }
{}

pub fn ranges_earn_one_refusal_or_none()
    ensures one { OneRangeRefusal }
    ensures none { RefusedOrFitting }
{}
