//! The laws of nodes over packets. Each function is empty: its clause is the law.

ghost use Rattle.node_stepper.specs.Cells.{NodeWritesStates};
ghost use Rattle.node_stepper.specs.RunLaws.{AnyLiesConnect, BorneLeavesSome, NodesRun, NodesSettle};
ghost use Rattle.node_stepper.specs.RunLaws.{NodesLock, NodesStayLocked, HeardNodesStayLocked};
ghost use Rattle.node_stepper.specs.Losses.{LossesKeepLocked};
ghost use Rattle.node_stepper.specs.Lossy.{AnyLossesConnect};
ghost use Rattle.node_stepper.specs.Missed.{OthersAreMissed};
ghost use Rattle.node_stepper.specs.Restarts.{AnyRestartConnects, AnyResumptionConnects};
ghost use Rattle.node_stepper.specs.Rounds.{NodesInRoundsRun, NodesInRoundsStayLocked};

/// What a node writes is, cell by cell, its states: the first, and that after each packet.
pub fn node_writes_states()
    ensures { NodeWritesStates }
{}

/// There are connected nodes for all states of theirs in which the correct ones begin, wherever the
/// window begins in each of them, and for all bytes that are sent as the cells of faulty ones, and
/// of all nodes before the window. Their packets are whole, and hold of each correct node what it
/// writes.
pub fn any_lies_connect()
    ensures { AnyLiesConnect }
{}

/// Of a sound machine some node is correct, whichever faulty nodes it tolerates.
pub fn borne_leaves_some()
    ensures { BorneLeavesSome }
{}

/// Nodes that are connected for a window of rounds, so that each correct one hears the states of
/// the other correct ones, are a run of the machine there: whatever bytes, of whatever length, they
/// are given as the cells of faulty nodes, and whatever was before. The window begins in each node
/// at a packet of its own, as when some were started anew while others went on.
pub fn nodes_run()
    ensures { NodesRun }
{}

/// So they settle, if the machine tolerates the faulty nodes: T rounds later all correct nodes show
/// one number, which grows by one modulo C with each round.
pub fn nodes_settle()
    ensures { NodesSettle }
{}

/// Then they are locked.
pub fn nodes_lock()
    ensures { NodesLock }
{}

/// Once they are locked, before that too, they stay locked and count.
pub fn nodes_stay_locked()
    ensures { NodesStayLocked }
{}

/// A sound machine stays locked, and counts, when states are lost: as long as each correct node
/// hears in each round the true states of N - F correct nodes, itself among them, whichever these
/// are.
pub fn losses_keep_locked()
    ensures { LossesKeepLocked }
{}

/// So do nodes over packets: a cell that is lost, or late, or wrong may be any bytes.
pub fn heard_nodes_stay_locked()
    ensures { HeardNodesStayLocked }
{}

/// There are such nodes for all states in which the correct ones begin, whatever is lost of what
/// the machine tolerates, to each node in each round something else, and whatever comes in its
/// place.
pub fn any_losses_connect()
    ensures { AnyLossesConnect }
{}

/// There are connected nodes of which one is started anew while the others go on, in whatever state
/// of it, after however many rounds, and whatever the faulty ones send.
pub fn any_restart_connects()
    ensures { AnyRestartConnects }
{}

/// There are connected nodes of which one, after however many rounds, is started anew in the state
/// in which it was last, while the others go on, whatever the faulty ones send.
pub fn any_resumption_connects()
    ensures { AnyResumptionConnects }
{}

/// Nodes that say bytes to one another in rounds, from which each makes its step, are a run of the
/// machine, and count: however each of them keeps its state, so that processes over packets and
/// calls of a library may be mixed.
pub fn nodes_in_rounds_run()
    ensures { NodesInRoundsRun }
{}

/// From any locked round on they stay locked and count when states are lost.
pub fn nodes_in_rounds_stay_locked()
    ensures { NodesInRoundsStayLocked }
{}

/// Whichever N - F correct nodes a node hears in a round, itself among them, it may miss all
/// others.
pub fn others_are_missed()
    ensures { OthersAreMissed }
{}
