//! Places come and go, and after each step their chain is the plain list beside it.
ghost use Rattle.std.specs.Prelude.{◌≡◌, ◌<◌, length, vec_len};
ghost use Rattle.hash_chains.specs.Order.{HaveOwners};

use hash_chains::Chains;
use std::alloc::{AllocError, Global};
use std::process::Abort;
use std::test::Fail;

// Puts a place on a chain where it is on none, and takes it off where it is on one.
fn turn(rt: &impl Abort, chains: &mut Chains, owners: &mut Vec<Option<u32>>, place: u32, chain: u32)
    requires owners { HaveOwners chains.old.order owners.old.items }
    requires size { chains.old.size ≡ vec_len owners.old }
    requires chain { chain < length chains.old.order }
    // What it leaves.
    ensures owners { HaveOwners chains.new.order owners.new.items }
    ensures size { chains.new.size ≡ vec_len owners.new }
    ensures length { length chains.new.order ≡ length chains.old.order }
{
    assert!(rt; (place as usize) < owners.len());
    match owners[place as usize] {
        None => {
            chains.link(place, chain);
            owners[place as usize] = Some(chain);
        }
        Some(owner) => {
            chains.unlink(place, owner);
            owners[place as usize] = None;
        }
    }
}

// Compares a chain with a list, from place to place.
fn is_list(rt: &impl Abort, chains: &Chains, owners: &Vec<Option<u32>>, chain: u32, list: &[u32])
    requires owners { HaveOwners chains.now.order owners.now.items }
    requires chain { chain < length chains.now.order }
{
    let mut at = chains.first(chain);
    for &place in list {
        assert_eq!(rt; at, Some(place));
        assert!(rt; (place as usize) < owners.len());
        match owners[place as usize] {
            Some(_owner) => at = chains.after(place),
            None => panic!(rt; "place {place} is on no chain"),
        }
    }
    assert_eq!(rt; at, None);
}

// Turns places one after another.
fn turn_all(rt: &impl Abort, alloc: Global) -> Result<(), AllocError> {
    let mut chains = Chains::new(alloc, 2, 4)?;
    let mut owners = vec![in alloc; None; 4]?;
    let steps: [(u32, u32, &[u32]); 10] = [
        (2, 1, &[2]),
        (0, 1, &[0, 2]),
        (3, 1, &[3, 0, 2]),
        (1, 0, &[1]),
        (0, 1, &[3, 2]),
        (0, 0, &[0, 1]),
        (2, 1, &[3]),
        (3, 1, &[]),
        (1, 0, &[0]),
        (3, 0, &[3, 0]),
    ];
    for (place, chain, list) in steps {
        assert!(rt; chain < 2);
        turn(rt, &mut chains, &mut owners, place, chain);
        is_list(rt, &chains, &owners, chain, list);
    }
    Ok(())
}

#[test]
fn places_come_and_go(rt: HostRuntime) -> Result<(), Fail> {
    turn_all(&rt, rt.alloc())?;
    Ok(())
}
