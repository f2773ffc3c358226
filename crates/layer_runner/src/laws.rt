//! The laws of what is played of a script that was read for a sound machine with a layer above.
//! Each function is empty: its clause is the law.

ghost use Rattle.counter_core.specs.Overlays.{Layer};
ghost use Rattle.layer_runner.specs.Laws.{ReadersFit, StatesFit, MachinesSettle, ErasAreLayerRuns};
ghost use Rattle.layer_runner.specs.Laws.{ErasCount, ErasLock, ErasStayLocked};

use counter_core::Overlay;

/// A script that the reader of scripts read for the nodes and faults of a machine, and for the
/// shape of its states with a layer's registers after them, is read for both if the layer stands
/// over the machine.
pub fn readers_fit<O: Overlay>()
    ensures { (layer : Layer O.Kept) → ReadersFit layer }
{}

/// The states of a node of a script that was read for a machine with a layer above are those of the
/// machine's node with the layer's registers after its own, their finite values below the layer's.
pub fn states_fit<O: Overlay>()
    ensures { (layer : Layer O.Kept) → StatesFit layer }
{}

/// The counter of a sound machine is settling, so that the laws of layers hold of machines.
pub fn machines_settle()
    ensures { MachinesSettle }
{}

/// What is played of each era, with a layer whose step keeps values in range, is a run with the
/// layer with the era's faulty nodes, and each round has what they tell as its table of lies;
/// without the layer it is a run of the machine.
pub fn eras_are_layer_runs<O: Overlay>()
    ensures { (layer : Layer O.Kept) → ErasAreLayerRuns layer }
{}

/// From the machine's bound on, counted from the first configuration of an era, to the era's end
/// all nodes that are correct in it show one number, which grows by one modulo C each round.
pub fn eras_count<O: Overlay>()
    ensures { (layer : Layer O.Kept) → ErasCount layer }
{}

/// If an era goes on to the machine's bound, it has a first locked configuration, at the bound or
/// before.
pub fn eras_lock<O: Overlay>()
    ensures { (layer : Layer O.Kept) → ErasLock layer }
{}

/// From a locked configuration of an era on, before the bound too, each one is locked to the era's
/// end, and they count.
pub fn eras_stay_locked<O: Overlay>()
    ensures { (layer : Layer O.Kept) → ErasStayLocked layer }
{}
