ghost use Rattle.std.specs.Prelude.{◌≡◌, ◌<◌, ◌≤◌, ◌+◌, ◌%◌, ◌^◌, length};
ghost use Rattle.sync_types.specs.States.{zero_state};
ghost use Rattle.construction.specs.Steps.{state_of};
ghost use Rattle.state_codec.specs.Shapes.{fields_at, shape_nodes};
ghost use Rattle.state_codec.specs.Ranges.{InRange};
ghost use Rattle.adversary_script.specs.Lies.{shifted_register, shifted, fitted_register, fitted};

use state_codec::Packed;
use sync_types::{NodeState, Reg};

/// The register that stands where a node lacks one.
const ZERO: Reg = Reg {
    a: Some(0),
    d: false,
};

/// A modulus, which is 0 if a node lacks the field.
#[derive(Clone, Copy)]
struct Modulus {
    value: u64,
    ghost most: { value ≤ 2 ^ 40 },
}

impl Modulus {
    /// The sum of two numbers modulo this, if it is not 0.
    fn sum(self, a: u64, by: u64) -> u64
        ensures { 1 ≤ self.value → result ≡ (a + by) % self.value }
    {
        if self.value == 0 {
            return 0;
        }
        (a % self.value + by % self.value) % self.value
    }

    /// A register whose finite value is `by` larger, modulo this. One that is lacking stays zero.
    fn shifted(self, register: Reg, by: u64) -> Reg
        ensures { result ≡ shifted_register by self.value register }
    {
        if self.value == 0 {
            return ZERO;
        }
        let a = match register.a {
            Some(a) => Some(self.sum(a, by)),
            None => None,
        };
        Reg { a, d: register.d }
    }
}

/// A register whose value is infinite if it is not below the modulus; the zero register if the
/// modulus is 0.
#[tactic(auto, unfolding(crate::specs::Lies::fitted_register))]
fn fitted_register(modulus: u64, register: Reg) -> Reg
    ensures { result ≡ fitted_register modulus register }
{
    if modulus == 0 {
        return ZERO;
    }
    let a = match register.a {
        Some(a) if a < modulus => Some(a),
        _ => None,
    };
    Reg { a, d: register.d }
}

/// The state of node `w` in a configuration, from which one of node `v` is made.
#[derive(Clone, Copy)]
pub struct Source<'a> {
    pub config: &'a Packed,
    pub w: u32,
    pub v: u32,
    ghost from: { w < length config.now.current },
    ghost node: { v < shape_nodes config.now.shape },
}

impl Source<'_> {
    /// Writes the state of node `v` whose number and finite values are `by` larger, each modulo
    /// its own modulus.
    pub fn shift_into(&self, by: u64, out: &mut NodeState)
        requires { length out.old.registers ≡ self.now.config.now.shape.depth }
        ensures value { out.new ≡ shifted by (fields_at self.now.config.now.shape self.now.v)
            (state_of self.now.config.now.current self.now.w) }
        ensures range { InRange (fields_at self.now.config.now.shape self.now.v) out.new }
    {
        self.config.facts();
        let modulus = Modulus {
            value: self.config.shape().base_of(self.v),
        };
        out.set_x(modulus.sum(self.config.x(self.w), by));
        self.shift_registers(by, out);
    }

    /// Writes registers whose finite values are `by` larger, each modulo its own modulus.
    fn shift_registers(&self, by: u64, out: &mut NodeState)
        requires { length out.old.registers ≡ self.now.config.now.shape.depth }
        ensures { out.new ≡ record out.old {
          registers =
              (shifted by (fields_at self.now.config.now.shape self.now.v)
              (state_of self.now.config.now.current self.now.w)).registers;
        } }
    {
        for i in 0..self.config.shape().depth() {
            let modulus = Modulus {
                value: self.config.shape().modulus_of(self.v, i),
            };
            out.set_reg(i, modulus.shifted(self.config.reg(self.w, i), by));
        }
    }

    /// Writes those fields that node `v` has, and zero in the place of what it lacks.
    pub fn fit_into(&self, out: &mut NodeState)
        requires { length out.old.registers ≡ self.now.config.now.shape.depth }
        ensures value { out.new ≡ fitted (fields_at self.now.config.now.shape self.now.v)
            (state_of self.now.config.now.current self.now.w) }
        ensures range { InRange (fields_at self.now.config.now.shape self.now.v) out.new }
    {
        self.config.facts();
        let x = self.config.x(self.w);
        out.set_x(if x < self.config.shape().base_of(self.v) {
            x
        } else {
            0
        });
        self.fit_registers(out);
    }

    /// Writes those registers that node `v` has, and zero in the place of the others.
    fn fit_registers(&self, out: &mut NodeState)
        requires { length out.old.registers ≡ self.now.config.now.shape.depth }
        ensures { out.new ≡ record out.old {
          registers =
              (fitted (fields_at self.now.config.now.shape self.now.v)
              (state_of self.now.config.now.current self.now.w)).registers;
        } }
    {
        for i in 0..self.config.shape().depth() {
            let modulus = self.config.shape().modulus_of(self.v, i);
            out.set_reg(i, fitted_register(modulus, self.config.reg(self.w, i)));
        }
    }
}

/// Writes the state of node `v` whose number and finite values are `by` larger than those of node
/// `w`, each modulo its own modulus.
pub fn shift_into(config: &Packed, v: u32, by: u64, w: u32, out: &mut NodeState)
    requires node { v < shape_nodes config.now.shape }
    requires from { w < length config.now.current }
    requires depth { length out.old.registers ≡ config.now.shape.depth }
    ensures value { out.new
        ≡ shifted by (fields_at config.now.shape v) (state_of config.now.current w) }
    ensures range { InRange (fields_at config.now.shape v) out.new }
{
    Source { config, w, v }.shift_into(by, out);
}

/// Makes a state the zero state of its depth.
pub fn zero_into(out: &mut NodeState)
    ensures { out.new ≡ zero_state (length out.old.registers) }
{
    out.set_x(0);
    for i in 0..out.depth() {
        out.set_reg(i, ZERO);
    }
}
