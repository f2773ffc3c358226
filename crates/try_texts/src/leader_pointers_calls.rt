use leader_pointers::{part, pointer};

#[test]
fn points_to_leaders(rt: HostRuntime) {
    for (i, o, leader) in [(0, 9, 1), (3, 575, 0), (3, 576, 1)] {
        assert!(rt; pointer(9, 2, i, o) == leader, "block {i} at {o}");
    }
    assert!(rt; part(9, 575) == 8);
}
