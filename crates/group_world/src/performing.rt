//! Lists of events.
ghost use Rattle.std.specs.Prelude.{IfErr, IfOk};
ghost use Rattle.group_protocol.specs.States.{IsSize};
ghost use Rattle.group_world.specs.Event.{LeadsBy};
ghost use Rattle.group_world.specs.Group.{new_world, world_state};
ghost use Rattle.group_world.specs.Refusals.{IsRunRefused};
ghost use Rattle.group_rules.specs.Claims.{ConsolesAgree, ConsolesHoldOutput, HasNoGap, LearnedAgree, LearnedChosen};
ghost use Rattle.group_rules.specs.Claims.{KeysOnce, SerialsInOrder};

use crate::event::Event;
use crate::fault::RunFault;
use crate::laws::headline;
use crate::world::World;
use pcode_ops::Program;
use std::alloc::Global;

/// Performs `events`, one after the other, on a group in which nothing has happened, and returns
/// the group after them. Fails at the first event that is refused, with its number and refusal.
/// Fails at number 0 with `Size` exactly if `size` is even or above 9, or with `Memory` if memory
/// runs out for the group.
///
/// The contract is the main theorem. Whatever the events, no two nodes have learned different
/// values for one place. What is learned is chosen, and was typed or is a no-op. Each console holds
/// a prefix of the program's output on the chosen input; so of two consoles one is a prefix of
/// the other. No released byte comes too early. No key is read twice, and the keys of one start of
/// one node are read in the order in which they were typed, with none left out between them.
pub fn run<'a>(
    alloc: Global,
    program: &'a Program,
    size: u8,
    session: u32,
    events: &[Event],
) -> Result<World<'a>, RunFault>
    ensures happens { IfOk result
        (λ w. LeadsBy (new_world program.now (record { size = size; session = session })) events.now
        w) }
    ensures learned_agree { IfOk result (λ w. LearnedAgree (world_state w)) }
    ensures learned_chosen { IfOk result (λ w. LearnedChosen (world_state w)) }
    ensures consoles_hold_output { IfOk result (λ w. ConsolesHoldOutput (world_state w)) }
    ensures consoles_agree { IfOk result (λ w. ConsolesAgree (world_state w)) }
    ensures no_gap { IfOk result (λ w. HasNoGap (world_state w)) }
    ensures key_once { IfOk result (λ w. KeysOnce (world_state w)) }
    ensures serials_in_order { IfOk result (λ w. SerialsInOrder (world_state w)) }
    ensures size { IfOk result (λ w. IsSize size) }
    ensures refused { IfErr result
        (λ e. IsRunRefused (new_world program.now (record { size = size; session = session }))
        events.now e) }
{
    headline();
    let mut world = match World::new(alloc, program, size, session) {
        Ok(world) => world,
        Err(fault) => return Err(RunFault { event: 0, fault }),
    };
    for (event, happens) in events.iter().enumerate() {
        if let Err(fault) = world.apply(happens) {
            return Err(RunFault { event, fault });
        }
    }
    Ok(world)
}
