//! The laws of the texts of plans, and of nodes that step by calls. The functions are empty: their
//! clauses are the laws.

ghost use Rattle.node_calls.specs.Counters.{TextsHaveCounters};
ghost use Rattle.node_calls.specs.Counting.{NodesCount, LossyNodesCount};
ghost use Rattle.node_calls.specs.Lossy.{AnyLossesAreTold};
ghost use Rattle.node_calls.specs.Members.{AnyMembersConnect, AnyMembersAreHeard};
ghost use Rattle.node_calls.specs.MixedNodes.{MixedNodesCount, MixedNodesStayLocked};

/// Each text of an accepted plan, of either construction, has the counter of that plan; and the
/// machine of each counter of a text is sound.
pub fn texts_have_counters()
    ensures { TextsHaveCounters }
{}

/// Nodes that step in rounds as [`step`](crate::step) answers count: from the plan's bound on all
/// correct ones show one number, as [`output`](crate::output) answers, which grows by one modulo C
/// in each round; whatever bytes they begin with, and whatever the faulty ones say to whom. At the
/// bound they are locked, and from any locked round on they stay so and count.
pub fn nodes_count()
    ensures { NodesCount }
{}

/// From any locked round on they stay locked and count even if states are lost, as long as each
/// correct node is given in each round the states of N - F correct nodes, its own among them,
/// whichever these are.
pub fn lossy_nodes_count()
    ensures { LossyNodesCount }
{}

/// There are such rounds, whatever states the nodes begin in, and whatever is lost that the plan
/// tolerates, to each node in each round something else: in bytes, if what is given in its place
/// are bytes that fit into a cell.
pub fn any_losses_are_told()
    ensures { AnyLossesAreTold }
{}

/// Nodes of which some are processes over packets and others step by calls, whichever these are,
/// are one network: what they say is a run of the counter, and they count as the others do.
pub fn mixed_nodes_count()
    ensures { MixedNodesCount }
{}

/// From any locked round on they stay locked and count even if states are lost.
pub fn mixed_nodes_stay_locked()
    ensures { MixedNodesStayLocked }
{}

/// There are such networks, whichever nodes step by calls, whatever states they begin in, and
/// whatever the faulty ones say: in bytes, if what these say are bytes that fit into a cell.
pub fn any_members_connect()
    ensures { AnyMembersConnect }
{}

/// So there are whatever is lost that the plan tolerates, and whatever is given in its place.
pub fn any_members_are_heard()
    ensures { AnyMembersAreHeard }
{}
