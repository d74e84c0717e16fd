ghost use Rattle.sink.specs.Laws.{ParkAdds, WordTells, DrawRemoves};

// What the meaning after a park and a draw says of the set of parked vectors.
pub fn parked_laws()
    ensures park { ParkAdds }
    ensures word { WordTells }
    ensures draw { DrawRemoves }
{}
