//! The laws of nodes of a plan. Each function is empty: its clause is the law.

ghost use Rattle.plan_machine.specs.Laws.{AnyLiesConnect, BorneLeavesSome, NodesRun, NodesSettle};
ghost use Rattle.plan_machine.specs.Laws.{NodesLock, NodesStayLocked, HeardNodesStayLocked};
ghost use Rattle.plan_machine.specs.Missed.{OthersAreMissed};

/// There are connected nodes for all states of theirs in which the correct ones begin, wherever the
/// window begins in each of them, and for all bytes that are sent as the cells of faulty ones, and
/// of all nodes before the window. Their packets are whole, and hold of each correct node what it
/// writes.
pub fn any_lies_connect()
    ensures { AnyLiesConnect }
{}

/// Of an accepted plan some node is correct, whichever faulty nodes it tolerates.
pub fn borne_leaves_some()
    ensures { BorneLeavesSome }
{}

/// Nodes that are connected for a window of rounds, so that each correct one hears the states of
/// the other correct ones, are a run of the plan there: whatever bytes, of whatever length, they
/// are given as the cells of faulty nodes, and whatever was before. The window begins in each node
/// at a packet of its own, as when some were started anew while others went on.
pub fn nodes_run()
    ensures { NodesRun }
{}

/// So they settle, if the plan tolerates the faulty nodes: T rounds later all correct nodes show
/// one number, which grows by one modulo C with each round.
pub fn nodes_settle()
    ensures { NodesSettle }
{}

/// Then they are locked.
pub fn nodes_lock()
    ensures { NodesLock }
{}

/// Once they are locked, before that too, they stay locked and count.
pub fn nodes_stay_locked()
    ensures { NodesStayLocked }
{}

/// So they do when states are lost, as long as each correct node hears in each round the true
/// states of N - F correct nodes, itself among them, whichever these are.
pub fn heard_nodes_stay_locked()
    ensures { HeardNodesStayLocked }
{}

/// Whichever N - F correct nodes a node hears in a round, itself among them, it may miss all
/// others.
pub fn others_are_missed()
    ensures { OthersAreMissed }
{}
