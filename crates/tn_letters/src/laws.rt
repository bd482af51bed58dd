//! Laws of runs. A law answers nothing: its contract is what it says.

ghost use Rattle.tn_letters.specs.AtRest.{EveryHistoryAnswersAtRest};
ghost use Rattle.tn_letters.specs.Conserved.{EveryRunConserves, EveryRunHands, EveryRunHandsTheHost};
ghost use Rattle.tn_letters.specs.Law.{EveryRunIsBagRun};
ghost use Rattle.tn_letters.specs.NextStep.{EveryAnswerIsRead, EveryAnswerWaits, EveryIdleThreadIsAnswered};
ghost use Rattle.tn_letters.specs.SlotLaw.{EveryEventKeepsSlots, EveryPutIsOfItsPacket, EveryRunKeepsSlots, EveryThreadKeepsItsSlots};

/// Each run of a machine from its start is a run of the bag machine: what a thread is handed was sent to it, and a letter
/// that is neither handed nor dropped is in a named place.
/// An announcement of the machine's rest is a step of the run, and the step is enabled only if no letter is in flight. No other event
/// of the detector is a step.
pub fn law_runs()
    ensures { EveryRunIsBagRun }
{}

/// If a thread is idle when the machine's rest is announced, its next step ends its idle with the announced value. A thread that has
/// an answer does not change before its next step, and that step reads the answer. In a machine the thread has the answer before its
/// next turn.
pub fn law_answers()
    ensures waits { EveryAnswerWaits }
    ensures read { EveryAnswerIsRead }
    ensures machines { EveryIdleThreadIsAnswered }
{}

/// Whatever events happen to a machine from its start, each announcement comes at rest and tells what the votes give. An announcement
/// ends the run if and only if every thread has ended and the host's script is at its end. Each thread that was idle at an announcement
/// has the announced value when it makes its next turn, and no thread has another answer.
pub fn law_rest()
    ensures { EveryHistoryAnswersAtRest }
{}

/// Letters are conserved in each run of the bag machine: those that were in flight and those that its steps sent are those
/// in flight at its end and those that were handed, taken by the host or dropped, each as often. And a thread got what the
/// steps handed to it, in their order. The host got what it took in the steps, in their order.
pub fn law_letters()
    ensures conserved { EveryRunConserves }
    ensures handed { EveryRunHands }
    ensures taken { EveryRunHandsTheHost }
{}

/// A slot keeps its message from the put of the message until the slot is free again. A slot is used if a thread is owed it or
/// holds it. Each event keeps the bytes and the sender of a used slot, and makes no thread owed the slot that was not owed it.
/// A run does so too, if the slot is used before each of its events. A used slot stays with each thread until that thread makes a
/// turn. If a thread becomes owed a slot, the event brought a packet to the tile and put it into the slot. The slot then has the
/// packet's bytes and sender, and each receiver that is alive is owed the slot.
pub fn law_slots()
    ensures events { EveryEventKeepsSlots }
    ensures runs { EveryRunKeepsSlots }
    ensures threads { EveryThreadKeepsItsSlots }
    ensures puts { EveryPutIsOfItsPacket }
{}
