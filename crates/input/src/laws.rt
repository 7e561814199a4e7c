// Laws of the definitions. Each function's contract is the law that its name says.
ghost use Rattle.input.specs.Judged.{HasOneVerdict};

pub fn every_input_gets_one_verdict()
    ensures { HasOneVerdict }
{}
