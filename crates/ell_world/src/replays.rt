//! A list of events on a world.
ghost use Rattle.std.specs.Prelude.{◌≡◌, IfOk, OnErr};
ghost use Rattle.ell_core.specs.acts.Runs.{Shows, Run, Passes};
ghost use Rattle.ell_core.specs.statements.RunLaws.{IsOpening, WinsInOrder};
ghost use Rattle.ell_world.specs.World.{machine_of};

use crate::world::World;
use ell_core::{CoreFault, Event, Shown};
use ell_ops::NoMemory;
use std::alloc::Allocator;

/// Tries each event in turn, and shows its answer or its refusal. A refused event changes nothing, and the replay goes
/// on. The place of an answer is taken before its event; if there is no memory for it or in a step, the replay ends
/// before that event, and the world is as the events before it left it. On a world as `World::new` returned it, each
/// card's wins come in their order.
pub fn replay<A: Allocator + Copy>(
    alloc: A,
    world: &mut World<A>,
    events: &[Event],
) -> Result<Vec<Shown, A>, NoMemory>
    // If it succeeds, the events are a run from the world as it was to the world as it becomes, each with what is shown
    // of it.
    ensures run { IfOk result (λ shown. Run (machine_of world.old) events.now shown.items (machine_of world.new)) }
    // From an opening, each card's exchanges are won in order.
    ensures order { IfOk result (λ shown. IsOpening (machine_of world.old) → WinsInOrder (machine_of world.old)
        events.now shown.items (machine_of world.new)) }
    // If an allocation fails, the world is where the run of some first events leads.
    ensures passes { OnErr result (Passes (machine_of world.old) events.now (machine_of world.new)) }
    // The number of the last card stays the same.
    ensures cards { world.new.last_card ≡ world.old.last_card }
{
    let mut shown = Vec::new(alloc);
    for event in events {
        shown.reserve(1)?;
        let answer = show(world, *event)?;
        shown.push(answer)?;
    }
    Ok(shown)
}

// Tries one event: what is shown of it.
fn show<A: Allocator + Copy>(world: &mut World<A>, event: Event) -> Result<Shown, NoMemory>
    ensures shows { IfOk result (λ shown. Shows (machine_of world.old) event shown (machine_of world.new)) }
    ensures unchanged { OnErr result (world.new ≡ world.old) }
    ensures cards { world.new.last_card ≡ world.old.last_card }
{
    match world.step(event) {
        Ok(said) => Ok(Shown::Step(said)),
        Err(CoreFault::NoMemory) => Err(NoMemory),
        Err(fault) => Ok(Shown::Refused(fault)),
    }
}
