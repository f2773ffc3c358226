//! What calls of `node` promise that are given one another's cells. The function does nothing: its
//! clause is the law.

ghost use Rattle.promises.specs.NodePromises.{NodePromiseIsKept};

/// N calls of `node`, one for each node of a plan, of which few are faulty. For a window of rounds
/// each of the others is given, in each packet, the cells that they wrote after as many rounds, and
/// of the faulty ones any bytes. The window begins in each call at a packet of its own. Then their
/// cells are the states of a run, whatever came before: T rounds later they show one number, which
/// grows by one modulo C with each packet, and so they do from any locked configuration on. From
/// there on they do so even if cells are lost, as long as each is given in each round those of
/// N - F correct nodes, its own among them, whichever these are. A process that is started anew is
/// a faulty node of the whole window and a correct one of its rest. A call's text is what it writes
/// with the statuses `Ok`, `Cut`, `TooLong` and `ReadFault`; with the last one it is that of the
/// packets that were read. Each status is the one that is meant: those of a refused header are the
/// status and the line of one refusal. Each call is a process over packets from the state on that
/// its header states. There are inputs that meet each premise, except that the configuration is
/// locked from which on cells are lost, and that end with `Ok`: of connected calls, of calls to
/// which cells are lost, of calls of which one is started anew, and of some of which one goes on
/// from the last cell that was written in its place; whatever states they begin in, and whatever is
/// sent.
pub fn node_promise_is_kept()
    ensures { NodePromiseIsKept }
{}
