//! What calls of nodes of a halving plan promise if they are given one another's cells. The functions
//! do nothing: their clauses are the laws.

ghost use Rattle.halving_texts.specs.NodePromises.{HalvingNodesKeepPromise, HalvingCallsAreProcesses};
ghost use Rattle.halving_texts.specs.NodePromises.{AnyHalvingInputsConnect, AnyHalvingInputsLose};
ghost use Rattle.halving_texts.specs.NodePromises.{AnyHalvingInputsRestart, AnyHalvingInputsResume};
ghost use Rattle.halving_texts.specs.NodePromises.{AnyHalvingInputs};

use crate::header_laws::header_texts_read_back;
use halving_plan::laws::accepted_are_sound;
use node_stepper::run_laws::others_are_missed;

/// N calls, one for each node of a halving plan, of which few are faulty. For a window of rounds each
/// of the others is given, in each packet, the cells that they wrote after as many rounds, and of
/// the faulty ones any bytes. The window begins in each call at a packet of its own. Then their
/// cells are the states of a run, whatever came before: T rounds later they show one number, which
/// grows by one modulo C with each packet, and so they do from any locked configuration on. From
/// there on they do so when cells are lost too, as long as each is given in each round those of
/// N - F correct nodes, its own among them, whichever these are. A process that is started anew is
/// a faulty node of the whole window and a correct one of its rest. A skipped line may stand
/// anywhere in a header, and changes nothing but the numbers of lines that are refused.
pub fn halving_nodes_keep_promise()
    ensures { HalvingNodesKeepPromise }
{
    others_are_missed();
    accepted_are_sound();
}

/// Each call of a node writes what a node of its plan writes that begins in the state which the
/// header states, and is given the packets of the call.
pub fn calls_are_processes()
    ensures { HalvingCallsAreProcesses }
{}

/// There are inputs of such calls, whatever states of theirs the correct nodes begin in, wherever
/// the window begins in each of them, and whatever is given as the cells of faulty ones, and of all
/// nodes before the window. If that fits into cells, they are bytes, as all inputs here are.
pub fn any_inputs_connect()
    ensures { AnyHalvingInputsConnect }
{
    header_texts_read_back();
    accepted_are_sound();
}

/// There are inputs of such calls to which cells are lost: whichever nodes each of them misses in
/// each round, at most F and the faulty ones among them, and whatever is given in place of their
/// cells.
pub fn any_inputs_lose()
    ensures { AnyHalvingInputsLose }
{
    header_texts_read_back();
    accepted_are_sound();
}

/// There are inputs of such calls of which one is started anew after so many rounds, in whatever
/// state of its node, while the others go on, whatever the faulty ones send.
pub fn any_inputs_restart()
    ensures { AnyHalvingInputsRestart }
{
    header_texts_read_back();
    accepted_are_sound();
}

/// There are inputs of such calls of which one ends after so many rounds, and another input of its
/// node, whose header has the state of the last cell that it wrote, goes on with the others. From
/// the bound on all are locked there.
pub fn any_inputs_resume()
    ensures { AnyHalvingInputsResume }
{
    header_texts_read_back();
    accepted_are_sound();
}

/// All of these.
pub fn any_inputs()
    ensures { AnyHalvingInputs }
{
    any_inputs_connect();
    any_inputs_lose();
    any_inputs_restart();
    any_inputs_resume();
}
