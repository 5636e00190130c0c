//! What a caller can conclude of a world that it is given, whatever was done in it before.
ghost use Rattle.std.specs.Prelude.{IfOk};
ghost use Rattle.ell_world.specs.World.{machine_of};
ghost use Rattle.ell_core.specs.tree.Tree.{IsLawful};
ghost use Rattle.ell_core.specs.statements.Effects.{PairsChange};

use super::scripts::{FIVE_INSERTED, played};
use ell_core::Act::Begin;
use ell_core::{CoreFault, Event, Stepped, events_are_lawful};
use ell_ops::Op;
use ell_world::World;

// The tree of any world is lawful.
fn has_lawful_tree(world: &World)
    ensures { IsLawful (machine_of world.now).words }
{
    world.laws_hold();
}

// One event more in any world does to the keys of the tree and their values what its act should.
fn step_lawfully(world: &mut World, event: Event) -> Result<Stepped, CoreFault>
    ensures { IfOk result (λ said. PairsChange event.act said (machine_of world.old).words (machine_of world.new).words) }
{
    world.laws_hold();
    events_are_lawful();
    world.step(event)
}

#[test]
fn a_given_world_has_the_laws(rt: HostRuntime) {
    let mut world = played(&rt, 2, &[(0, 5)], 1, &[FIVE_INSERTED]);
    has_lawful_tree(&world);
    let act = Begin(Op::Find(5));
    assert!(rt; step_lawfully(&mut world, Event { worker: 0, act }) == Ok(Stepped::Moved));
    has_lawful_tree(&world);
}
