ghost use Rattle.std.specs.Prelude.{◌≡◌, ◌*◌, ◌^◌, ◌<◌, ◌≤◌};
ghost use Rattle.layer_laws.specs.Numbers.{AreNumbers, numbers_of};

use plan_numbers::Plan;
use std::marker::Model;

/// The numbers of a counter on which a layer stands.
#[derive(Debug, Drop)]
pub struct CounterNumbers {
    nodes: u32,
    faults: u32,
    modulus: u64,
    depth: usize,
}

impl Model for CounterNumbers {
    ghost use Rattle.layer_laws.specs.Numbers.{Numbers, AreNumbers};

    ghost Value = { Numbers };

    ghost view = { λ n. record {
      nodes = n.nodes;
      faults = n.faults;
      modulus = n.modulus;
      depth = n.depth;
    } };

    ghost invariant = { λ n. AreNumbers (record {
      nodes = n.nodes;
      faults = n.faults;
      modulus = n.modulus;
      depth = n.depth;
    }) };
}

impl CounterNumbers {
    /// Those of a counter of so many nodes, at most 256, of which less than a third may be faulty,
    /// that counts by 2 to 2^40 and whose states have so many registers, at most 1000.
    pub fn new(nodes: u32, faults: u32, modulus: u64, depth: usize) -> CounterNumbers
        requires { AreNumbers (record {
          nodes = nodes;
          faults = faults;
          modulus = modulus;
          depth = depth;
        }) }
        ensures { result ≡ record {
          nodes = nodes;
          faults = faults;
          modulus = modulus;
          depth = depth;
        } }
    {
        CounterNumbers {
            nodes,
            faults,
            modulus,
            depth,
        }
    }

    /// Those of a plan's counter.
    pub fn of(plan: &Plan) -> CounterNumbers
        ensures { result ≡ numbers_of plan.now }
    {
        plan.facts();
        CounterNumbers {
            nodes: plan.nodes(),
            faults: plan.faults(),
            modulus: plan.modulus(),
            depth: plan.depth(),
        }
    }

    /// Tells a caller's proof within which limits they are. It does nothing when it runs.
    pub fn facts(&self)
        ensures { AreNumbers self.now }
    {
        let _nodes = self.nodes;
    }

    /// How many nodes there are, 1 to 256.
    pub fn nodes(&self) -> u32
        ensures { result ≡ self.now.nodes }
    {
        self.nodes
    }

    /// How many of them may be faulty, less than a third.
    pub fn faults(&self) -> u32
        ensures { result ≡ self.now.faults }
    {
        self.faults
    }

    /// The modulus that the counter counts by, 2 to 2^40.
    pub fn modulus(&self) -> u64
        ensures { result ≡ self.now.modulus }
    {
        self.modulus
    }

    /// How many registers a state of the counter has, at most 1000.
    pub fn depth(&self) -> usize
        ensures { result ≡ self.now.depth }
    {
        self.depth
    }
}
