//! What is attacked.

ghost use Rattle.std.specs.Prelude.{◌≡◌};
ghost use Rattle.machine_runner.specs.Laws.{IsShapeOf};
ghost use Rattle.attack.specs.Targets.{IsTarget, IsFirstLine};

use machines::Machine;
use state_codec::StateShape;
use std::marker::Model;

/// What is attacked: a machine. Scripts for it are read by the shape of its states, and as they
/// stand after the text of a plan.
pub struct Target<'a, M: Machine> {
    machine: &'a M,
    shape: &'a StateShape,
    first_line: u64,
}

impl<'a, M: Machine> Drop for Target<'a, M> {
    fn drop(self) {
        let Target {
            machine: _,
            shape: _,
            first_line: _,
        } = self;
    }
}

impl<'a, M: Machine> Model for Target<'a, M> {
    ghost use Rattle.attack.specs.Targets.{Aim, IsTarget};

    ghost Value = { Aim M };

    ghost view = { λ t. record {
      machine = t.machine.now;
      shape = t.shape.now;
      first_line = t.first_line;
    } };

    ghost invariant = { λ t. IsTarget (M.machine t.machine.now) t.shape.now t.first_line };
}

impl<'a, M: Machine> Target<'a, M> {
    /// A machine with the shape of its states, and the number of the line, 1 to 2^32, with which
    /// the text of a script for it begins.
    pub fn new(machine: &'a M, shape: &'a StateShape, first_line: u64) -> Target<'a, M>
        requires shape { IsShapeOf (M.machine machine.now) shape.now }
        requires first { IsFirstLine first_line }
        ensures { result ≡ record {
          machine = machine.now;
          shape = shape.now;
          first_line = first_line;
        } }
    {
        Target {
            machine,
            shape,
            first_line,
        }
    }

    /// The machine.
    pub fn machine(&self) -> &'a M
        ensures { result.now ≡ self.now.machine }
    {
        self.machine
    }

    /// The shape of its states.
    pub fn shape(&self) -> &'a StateShape
        ensures { result.now ≡ self.now.shape }
    {
        self.shape
    }

    /// The number of the line with which a script begins.
    pub fn first_line(&self) -> u64
        ensures { result ≡ self.now.first_line }
    {
        self.first_line
    }

    /// Tells a caller's proof that it is a target. It does nothing when it runs.
    pub fn facts(&self)
        ensures { IsTarget (M.machine self.now.machine) self.now.shape self.now.first_line }
    {
        let _line = self.first_line;
    }
}
