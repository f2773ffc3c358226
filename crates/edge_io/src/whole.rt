ghost use Rattle.edge_io.specs.Whole.{TakenInMemory, TakenWithoutFaults, ReadWithoutFaults};

/// The law that no fault is counted if none can be: no write fault over a `MemSink` with no listed
/// call and room for the text, nor over a `NullSink`; no read fault over a `PlainSource`. It does
/// nothing.
///
/// `T` and `E` are the answer and the error of the call that reads or writes.
pub fn no_fault_is_counted<T, E>()
    ensures memory { TakenInMemory T E }
    ensures sink { TakenWithoutFaults T E }
    ensures source { ReadWithoutFaults T E }
{}
