ghost use Rattle.remap.specs.Worked.{Settled};

// The worked examples follow from the definitions.
pub fn worked_examples()
    ensures { Settled }
{}
