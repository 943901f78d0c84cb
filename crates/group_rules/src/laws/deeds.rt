//! The calls of a node, and what its program puts out, as deeds by the rules.
ghost use Rattle.std.specs.Prelude.{◌≡◌, ◌≢◌, ◌+◌, ◌≤◌, ◌∷◌, [], ℕ, List, None};
ghost use Rattle.pcode_machine.specs.Configuration.{Configuration};
ghost use Rattle.pcode_machine.specs.Runs.{after_steps, begin, LeadsIn};
ghost use Rattle.paxos_learner.specs.Input.{learned_input};
ghost use Rattle.group_node.specs.declared.player.Ran.{Ran};
ghost use Rattle.group_node.specs.Console.{offered};
ghost use Rattle.group_node.specs.Output.{Progress, RunsOn, unreleased_of};
ghost use Rattle.paxos_msg.specs.declared.record.Change.TheVariants.{Start};
ghost use Rattle.paxos_msg.specs.Batches.{Body, Record};
ghost use Rattle.paxos_msg.specs.Keys.{keys_of};
ghost use Rattle.paxos_msg.specs.Messages.{IsSent};
ghost use Rattle.paxos_msg.specs.Records.{changed};
ghost use Rattle.paxos_acceptor.specs.declared.me.Me.{Me};
ghost use Rattle.paxos_acceptor.specs.Stores.{IsOneOf};
ghost use Rattle.group_protocol.specs.Protocol.{on_message};
ghost use Rattle.group_node.specs.Deeds as deed;
ghost use Rattle.group_protocol.specs.Known.{on_typed, new_key, Known, on_start};
ghost use Rattle.group_protocol.specs.ProposerResponses.{on_campaign};
ghost use Rattle.group_protocol.specs.Tick.{on_tick};
ghost use Rattle.group_protocol.specs.Ranges.{IsHeardFit};
ghost use Rattle.group_rules.specs.Rules.{after_call, seat_of, Sits, SitsSoundly, with_seat, WorldState, WorldStep};

use group_protocol::laws::{
    calls_are_lawful, only_ticks_submit, serials_are_counted, waiting_keys_are_a_row,
};
use paxos_learner::laws::learned_stays;
use pcode_machine::laws::{run_is_after, step_is_transition};

/// Each call of a node that is in its ranges and backed is a deed that its group allows, by
/// `WorldStep`: a typed character, a sent message that is heard, a campaign, a tick, a start. So is
/// one whose save failed, with either record left, nothing sent and the node down.
pub fn calls_are_deeds()
    ensures press { (w : WorldState) (n : Known) (byte k : ℕ) (c : Configuration) (console : List ℕ)
        → SitsSoundly w n c k console → WorldStep w n.me.node (deed.Press byte)
        (after_call w n.me.node (on_typed n byte) (keys_of (new_key n byte)) c k console) }
    ensures hear { (w : WorldState) (n : Known) (j k : ℕ) (body : Body) (c : Configuration)
        (console : List ℕ) → SitsSoundly w n c k console → IsHeardFit n.me j body
        → IsSent w.sent j body
        → WorldStep w n.me.node (deed.Hear (record { sender = j; body = body }))
        (after_call w n.me.node (on_message n j body) [] c k console) }
    ensures campaign { (w : WorldState) (n : Known) (k : ℕ) (c : Configuration) (console : List ℕ)
        → SitsSoundly w n c k console → WorldStep w n.me.node deed.Campaign
        (after_call w n.me.node (on_campaign n) [] c k console) }
    ensures tick { (w : WorldState) (n : Known) (k : ℕ) (c : Configuration) (console : List ℕ)
        → SitsSoundly w n c k console → WorldStep w n.me.node deed.Tick
        (after_call w n.me.node (on_tick n) [] c k console) }
    ensures start { (w : WorldState) (me : Me) (r : Record) (console : List ℕ)
        → w.size ≡ me.group.size
        → w.seats me.node ≡ record { kept = r; console = console; up = None }
        → WorldStep w me.node (deed.Start r)
        (after_call w me.node (on_start me r) [] (begin w.program) 0 console) }
    ensures falls_hearing { (w : WorldState) (n : Known) (j k : ℕ) (body : Body) (left : Record)
        (c : Configuration) (console : List ℕ) → SitsSoundly w n c k console
        → IsHeardFit n.me j body
        → IsSent w.sent j body → (on_message n j body).saves ≢ None
        → IsOneOf left n.kept (on_message n j body).node.kept
        → WorldStep w n.me.node (deed.Hear (record { sender = j; body = body }))
        (with_seat w n.me.node (record { kept = left; console = console; up = None })) }
    ensures falls_campaign { (w : WorldState) (n : Known) (k : ℕ) (left : Record)
        (c : Configuration) (console : List ℕ) → SitsSoundly w n c k console
        → IsOneOf left n.kept (on_campaign n).node.kept → WorldStep w n.me.node deed.Campaign
        (with_seat w n.me.node (record { kept = left; console = console; up = None })) }
    ensures falls_start { (w : WorldState) (me : Me) (r left : Record) (console : List ℕ)
        → w.seats me.node ≡ record { kept = r; console = console; up = None }
        → IsOneOf left r (changed r Start)
        → WorldStep w me.node (deed.Start r)
        (with_seat w me.node (record { kept = left; console = console; up = None })) }
{
    calls_are_lawful();
    learned_stays();
    only_ticks_submit();
    serials_are_counted();
    waiting_keys_are_a_row();
}

/// A run, and the release of a byte to the console, are deeds that the group allows, if the machine
/// is where a replay on the learned input is. A run makes at most as many steps as it may.
pub fn output_is_a_deed()
    ensures run { (w : WorldState) (n : Known) (steps m made k : ℕ) (console : List ℕ)
        → Sits w n (after_steps w.program (learned_input n.learner.learned) m) k console
        → made ≤ steps → LeadsIn w.program (learned_input n.learner.learned) (m + made)
        (after_steps w.program (learned_input n.learner.learned) (m + made))
        → WorldStep w n.me.node (deed.Run steps)
        (with_seat w n.me.node
        (seat_of n (after_steps w.program (learned_input n.learner.learned) (m + made)) k
        console)) }
    ensures release { (w : WorldState) (n : Known) (m k byte : ℕ) (rest console : List ℕ)
        → Sits w n (after_steps w.program (learned_input n.learner.learned) m) k console
        → unreleased_of (learned_input n.learner.learned)
        (record { program = w.program; steps = m; released = k }) ≡ byte ∷ rest
        → WorldStep w n.me.node deed.Release
        (with_seat w n.me.node
        (seat_of n (after_steps w.program (learned_input n.learner.learned) m) (k + 1)
        (offered console k byte))) }
    ensures few { (x : List ℕ) (steps : ℕ) (old new : Progress) (answer : Ran)
        → RunsOn x steps old new answer → new.steps ≤ old.steps + steps }
{
    step_is_transition();
    run_is_after();
}
