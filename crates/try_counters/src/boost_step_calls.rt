ghost use Rattle.std.specs.Prelude.{◌≡◌, false};

use boost_step::Boost;
use counter_core::{Counter, Heard, Trivial, Work};
use std::test::Fail;
use sync_types::{NodeState, Premise, Reg};

fn plain(a: Option<u64>) -> Reg
    ensures { result ≡ record { a = a; d = false } }
{
    Reg { a, d: false }
}

/// Three blocks of one node, and a spare.
#[test]
fn a_spare_steps_at_its_level_alone(rt: HostRuntime) -> Result<(), Fail> {
    let boost = Boost::new(Trivial::new(576), 3, 1, 10, 1).unwrap();
    let mut work = Work::new(rt.alloc(), 4)?;
    let mut out = NodeState::zero(rt.alloc(), 1)?;
    let mut states = NodeState::zeros(rt.alloc(), 4, 1)?;
    states[3].set_reg(0, plain(Some(7)));
    let heard = Heard::of(&states);
    assert!(rt; boost.output(3, heard.state(3)) == 7);
    boost.advance(0, &heard, &mut work, &mut out);
    assert!(rt; out.x() == 1 && out.reg(0) == plain(Some(1)));
    boost.advance(3, &heard, &mut work, &mut out);
    assert!(rt; out.x() == 0 && out.reg(0) == plain(None));
    Ok(())
}

/// A place of thirteen nodes, and the lowest level in which the node there takes part.
const LOWEST: [(u32, usize); 6] = [(0, 0), (3, 1), (6, 0), (7, 1), (11, 1), (12, 2)];

#[test]
fn levels_stand_on_levels(rt: HostRuntime) {
    let below = Boost::new(Trivial::new(576), 3, 1, 960, 1).unwrap();
    let boost = Boost::new(below, 3, 3, 10, 1).unwrap();
    assert!(rt; boost.nodes() == 13 && boost.faults() == 3 && boost.depth() == 2);
    assert!(rt; boost.modulus() == 10 && boost.bound() == 1536);
    for row in &LOWEST {
        assert!(rt; boost.low(row.0 % 13) == row.1, "node {}", row.0);
    }
}

/// Blocks, faults, a modulus and spares of a level over one node, and the premise that they fail.
const REFUSED: [(u64, u64, u64, u64, Premise); 7] = [
    (17, 1, 10, 0, Premise::Limit),
    (3, 1, 10, 254, Premise::Limit),
    (2, 0, 10, 0, Premise::Blocks),
    (4, 1, 1, 0, Premise::Modulus),
    (3, 1, 10, 0, Premise::Quorum),
    (4, 2, 10, 4, Premise::Share),
    (5, 1, 10, 0, Premise::Multiple),
];

/// The premise that a level over one node fails.
fn refusal(k: u64, f: u64, c: u64, s: u64) -> Option<Premise> {
    Boost::new(Trivial::new(2304), k, f, c, s).err()
}

#[test]
fn a_level_that_fails_a_premise_is_refused(rt: HostRuntime) {
    for row in &REFUSED {
        let refused = refusal(row.0, row.1, row.2, row.3);
        assert!(rt;
            refused == Some(row.4),
            "{} blocks, {} faults",
            row.0,
            row.1
        );
    }
}
