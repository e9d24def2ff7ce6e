//! Laws of the definitions: functions that do nothing, whose contracts are proved.
ghost use Rattle.std.specs.Prelude.{List, flat_map};
ghost use Rattle.mu_model_wire.specs.Packet.{Packet as PlainPacket};
ghost use Rattle.mu_turns.specs.Turns.{Turn, Runs, Rounds, events_of};

use crate::member::Member;

/// Turns one after the other are their events one after the other.
pub fn turns_are_events<M: Member>()
    ensures { (old new : M) (turns : List Turn) (replies : List PlainPacket) → Rounds M.step M.ended old turns new replies → Runs M.step old (flat_map events_of turns) new replies }
{}
