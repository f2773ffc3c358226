//! Laws of states, bytes and digits, for all fields within the limits, and of the shapes of plans.

ghost use Rattle.std.specs.Prelude.{◌≡◌, ◌↔◌, ◌<◌, ℕ, List, true, length};
ghost use Rattle.std.specs.Int.{div_ceil};
ghost use Rattle.sync_types.specs.States.{State};
ghost use Rattle.construction.specs.Plans.{Plan, plan_low, plan_nodes, plan_bits, plan_depth};
ghost use Rattle.construction.specs.Runs.{IsState};
ghost use Rattle.plan_numbers.specs.Premises.{IsAccepted};
ghost use Rattle.state_codec.specs.Shapes.{Fields, IsFields, Shape, IsShape, shape_of, bits_in};
ghost use Rattle.state_codec.specs.Shapes.{bytes_in};
ghost use Rattle.state_codec.specs.Shapes.{shape_with, with_further, shape_nodes, fields_at};
ghost use Rattle.state_codec.specs.Shapes.{all_of, fields_from};
ghost use Rattle.state_codec.specs.Ranges.{InRange};
ghost use Rattle.state_codec.specs.Writing.{written};
ghost use Rattle.state_codec.specs.Reading.{read};
ghost use Rattle.state_codec.specs.Texts.{is_state_text, written_text, read_text};

/// What was written reads back.
pub fn written_reads_back()
    ensures { (fields : Fields) (state : State) → IsFields fields → InRange fields state
        → read fields (written fields state) ≡ state }
{}

/// What is read from any bytes is a state of these fields.
pub fn read_is_in_range()
    ensures { (fields : Fields) (bytes : List ℕ) → IsFields fields
        → InRange fields (read fields bytes) }
{}

/// The digits of a state are taken, and read back.
pub fn text_reads_back()
    ensures taken { (fields : Fields) (state : State)
        → is_state_text fields (written_text fields state) ≡ true }
    ensures back { (fields : Fields) (state : State) → IsFields fields → InRange fields state
        → read_text fields (written_text fields state) ≡ state }
{}

/// The shape of an accepted plan is within the limits, and has the plan's depth and nodes. All
/// fields of the plan together have its bits, and so has each node that takes part from the lowest
/// level on. If a shape is within the limits, so are the fields of each of its nodes.
pub fn plans_have_shapes()
    ensures shape { (plan : Plan) → IsAccepted plan → IsShape (shape_of plan) }
    ensures fields { (shape : Shape) (v : ℕ) → IsShape shape → IsFields (fields_at shape v) }
    ensures all { (plan : Plan) → IsAccepted plan
        → bits_in (fields_from (all_of plan) 0) ≡ plan_bits plan }
    ensures bits { (plan : Plan) → IsAccepted plan
        → (v : ℕ) → v < plan_nodes plan → plan_low plan v ≡ 0
        → bits_in (fields_at (shape_of plan) v) ≡ plan_bits plan }
    ensures depth { (plan : Plan) → (shape_of plan).depth ≡ plan_depth plan }
    ensures nodes { (plan : Plan) → shape_nodes (shape_of plan) ≡ plan_nodes plan }
{}

/// Node 0 of an accepted plan has all fields: the modulus of the base, and for each level a register
/// with its modulus. So its states have the plan's bits and bytes.
pub fn first_node_has_all()
    ensures fields { (plan : Plan) → IsAccepted plan
        → fields_at (shape_of plan) 0 ≡ all_of plan }
    ensures bits { (plan : Plan) → IsAccepted plan
        → bits_in (fields_at (shape_of plan) 0) ≡ plan_bits plan }
    ensures bytes { (plan : Plan) → IsAccepted plan
        → bytes_in (fields_at (shape_of plan) 0) ≡ div_ceil (plan_bits plan) 8 }
{}

/// The states of a node's fields are those of the plan's node.
pub fn range_is_of_plan()
    ensures { (plan : Plan) → IsAccepted plan → (v : ℕ) → v < plan_nodes plan → (state : State)
        → IsState plan v state ↔ InRange (fields_at (shape_of plan) v) state }
{}

/// Further registers stand after those of the plan, and no node lacks them.
pub fn further_registers_are_every_nodes()
    ensures { (plan : Plan) (values count v : ℕ) → v < plan_nodes plan
        → fields_at (shape_with plan values count) v
        ≡ with_further (fields_at (shape_of plan) v) values count }
{}
