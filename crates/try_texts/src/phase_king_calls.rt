ghost use Rattle.std.specs.Prelude.{◌≡◌, ◌<◌, ◌≤◌, true, false, IfSome};

use phase_king::{agree_step, king_step};
use sync_types::Reg;

const INFINITE: Reg = Reg { a: None, d: false };

fn plain(a: u64) -> Reg
    ensures { result ≡ record { a = Some a; d = false } }
{
    Reg {
        a: Some(a),
        d: false,
    }
}

fn marked(a: u64) -> Reg
    ensures { result ≡ record { a = Some a; d = true } }
{
    Reg {
        a: Some(a),
        d: true,
    }
}

// What both steps give among four nodes that tolerate one fault, with the modulus 10.
fn both(kind: u64, own: Reg, same: usize, least: Option<u64>, king: Option<u64>) -> (Reg, Reg)
    requires kind { kind ≤ 2 }
    requires own { IfSome own.a (λ a. a < 10) }
    requires least { IfSome least (λ a. a < 10) }
    requires king { IfSome king (λ a. a < 10) }
{
    (
        king_step(kind, own, same, least, king, 4, 1, 10),
        agree_step(kind, own, same, least, king, 4, 1),
    )
}

#[test]
fn worked_steps(rt: HostRuntime) {
    // heard 3, 3, 9, 9: too few have 3
    let few = both(0, plain(3), 2, Some(3), Some(3));
    assert!(rt; few == (INFINITE, INFINITE));

    // heard 4, 4, infinite, 7: more than one has 4, but not three
    let more = both(1, plain(4), 2, Some(4), Some(4));
    assert!(rt; more == (plain(5), plain(4)));

    // heard 1, 2, 3, 4: none has a value twice
    let single = both(1, plain(1), 1, None, Some(1));
    assert!(rt; single == (INFINITE, INFINITE));

    // the king's infinity counts as 0
    let of_king = both(2, INFINITE, 4, None, None);
    assert!(rt; of_king == (marked(1), marked(0)));

    // a marked value stays, and goes round
    let own = both(2, marked(9), 4, Some(9), Some(5));
    assert!(rt; own == (marked(0), marked(9)));
}
