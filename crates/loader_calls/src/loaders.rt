use crate::flags::{Flags, two_sources};
use crate::held_gate::HeldGate;
use loader_gate::gate::OpenGate;
use loader_gate::loading::load_all;
use std::test::Fail;

#[test]
fn every_number_of_loaders_gives_the_same_world(rt: HostRuntime) -> Result<(), Fail> {
    let alloc = rt.alloc();
    let loads = Flags {
        without_memory: None,
    };
    for loaders in [1, 2, 8] {
        assert!(rt; 1 <= loaders && loaders <= 64);
        let all = two_sources(&rt, alloc, true)?;
        let world = load_all(&rt, alloc, all, &loads, loaders, &OpenGate)?;
        assert!(rt; *world.verdict(0));
        assert!(rt; !*world.verdict(1));
    }
    Ok(())
}

#[test]
fn loaders_overlap(rt: HostRuntime) -> Result<(), Fail> {
    let alloc = rt.alloc();
    let loads = Flags {
        without_memory: None,
    };
    let gate = HeldGate::new();
    let all = two_sources(&rt, alloc, false)?;
    let world = load_all(&rt, alloc, all, &loads, 2, &gate)?;
    assert!(rt; !gate.has_met_limit());
    assert!(rt; *world.verdict(0));
    assert!(rt; !*world.verdict(1));
    Ok(())
}

#[test]
fn want_of_memory_for_a_module_ends_all_loaders(rt: HostRuntime) -> Result<(), Fail> {
    let alloc = rt.alloc();
    for module in [0, 1] {
        let loads = Flags {
            without_memory: Some(module),
        };
        let all = two_sources(&rt, alloc, true)?;
        assert!(rt; load_all(&rt, alloc, all, &loads, 1, &OpenGate).is_err());
    }
    Ok(())
}
