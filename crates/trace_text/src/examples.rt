ghost use Rattle.trace_text.specs.Examples.{TracesNothing, TracesDrive, TracesTurns, TracesOutcomes, Ranges};

/// Histories and their texts, computed from the definition.
pub fn traces()
    ensures nothing { TracesNothing }
    ensures drive { TracesDrive }
    ensures turns { TracesTurns }
    ensures outcomes { TracesOutcomes }
    ensures ranges { Ranges }
{}
