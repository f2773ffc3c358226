//! That calls of `node` are processes over packets. The function does nothing: its clause is the
//! law.

ghost use Rattle.promises.specs.Processes.{CallsAreProcesses};

/// Each call of `node`, of any plan and in either version, writes what a node of the plan writes
/// that begins in some state of it and is given the packets of the call.
pub fn calls_are_processes()
    ensures { CallsAreProcesses }
{}
