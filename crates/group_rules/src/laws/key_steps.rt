//! Laws that the rules on typed keys cannot be bent: of steps that are written down by hand, at
//! which a key is typed or submitted, and which are wrong in one way alone, none is a step by the
//! rules. The right ones beside them are in `right_calls` (`types`, `submits`).
ghost use Rattle.std.specs.Prelude.{[], ◌∷◌};
ghost use Rattle.paxos_msg.specs.declared.value.Value.TheVariants.{Keys};
ghost use Rattle.group_node.specs.Deeds as deed;
ghost use Rattle.group_rules.specs.Rules.{WorldStep};
ghost use Rattle.group_rules.specs.WrongSteps.{ballot_by, both_keys, kept_by, kept_third, nine, nine_fell, nine_submit, nine_type, key_of_9, seat_up, up_next};

/// What is typed at node 9 is a key of that node, of its present start and with that character. It
/// comes once to the typed keys, at their end, and waits after those that wait.
pub fn wrong_typing()
    // Presses.node.
    ensures at_another_node { ¬ WorldStep
        (nine_type 40 (key_of_9 39 64 ∷ []) (key_of_9 39 64 ∷ [])) 9 (deed.Press 65)
        (nine_type 41
        (key_of_9 39 64 ∷ (record { node = 7; start = 3; serial = 40; byte = 65 }) ∷ [])
        (key_of_9 39 64 ∷ (record { node = 7; start = 3; serial = 40; byte = 65 }) ∷ [])) }
    // Presses.start.
    ensures in_another_start { ¬ WorldStep
        (nine_type 40 (key_of_9 39 64 ∷ []) (key_of_9 39 64 ∷ [])) 9 (deed.Press 65)
        (nine_type 41
        (key_of_9 39 64 ∷ (record { node = 9; start = 2; serial = 40; byte = 65 }) ∷ [])
        (key_of_9 39 64 ∷ (record { node = 9; start = 2; serial = 40; byte = 65 }) ∷ [])) }
    // Presses.character.
    ensures another_character { ¬ WorldStep
        (nine_type 40 (key_of_9 39 64 ∷ []) (key_of_9 39 64 ∷ [])) 9 (deed.Press 65)
        (nine_type 41 (key_of_9 39 64 ∷ key_of_9 40 66 ∷ [])
        (key_of_9 39 64 ∷ key_of_9 40 66 ∷ [])) }
    // ChangesOnly.typed.
    ensures not_typed { ¬ WorldStep
        (nine_type 40 (key_of_9 39 64 ∷ []) (key_of_9 39 64 ∷ [])) 9 (deed.Press 65)
        (nine_type 41 (key_of_9 39 64 ∷ key_of_9 40 65 ∷ []) (key_of_9 39 64 ∷ [])) }
    // ChangesOnly.typed: once.
    ensures typed_twice { ¬ WorldStep
        (nine_type 40 (key_of_9 39 64 ∷ []) (key_of_9 39 64 ∷ [])) 9 (deed.Press 65)
        (nine_type 41 (key_of_9 39 64 ∷ key_of_9 40 65 ∷ [])
        (key_of_9 39 64 ∷ key_of_9 40 65 ∷ key_of_9 40 65 ∷ [])) }
    // ChangesOnly.typed: the order.
    ensures typed_first { ¬ WorldStep
        (nine_type 40 (key_of_9 39 64 ∷ []) (key_of_9 39 64 ∷ [])) 9 (deed.Press 65)
        (nine_type 41 (key_of_9 39 64 ∷ key_of_9 40 65 ∷ [])
        (key_of_9 40 65 ∷ key_of_9 39 64 ∷ [])) }
    // LearnsOnly.waiting: the order.
    ensures waits_first { ¬ WorldStep
        (nine_type 40 (key_of_9 39 64 ∷ []) (key_of_9 39 64 ∷ [])) 9 (deed.Press 65)
        (nine_type 41 (key_of_9 40 65 ∷ key_of_9 39 64 ∷ [])
        (key_of_9 39 64 ∷ key_of_9 40 65 ∷ [])) }
    // LearnsOnly.waiting: the typed keys.
    ensures dropped { ¬ WorldStep
        (nine_type 40 (key_of_9 39 64 ∷ []) (key_of_9 39 64 ∷ [])) 9 (deed.Press 65)
        (nine_type 41 (key_of_9 39 64 ∷ []) (key_of_9 39 64 ∷ key_of_9 40 65 ∷ [])) }
{}

/// A key that is typed has the next serial, and is counted once. A tick counts no key, and a start
/// begins with serial 1.
pub fn wrong_serials()
    // Presses.serial.
    ensures left_out { ¬ WorldStep
        (nine_type 40 (key_of_9 39 64 ∷ []) (key_of_9 39 64 ∷ [])) 9 (deed.Press 65)
        (nine_type 41 (key_of_9 39 64 ∷ key_of_9 41 65 ∷ [])
        (key_of_9 39 64 ∷ key_of_9 41 65 ∷ [])) }
    // MakesCall.next.
    ensures not_counted { ¬ WorldStep
        (nine_type 40 (key_of_9 39 64 ∷ []) (key_of_9 39 64 ∷ [])) 9 (deed.Press 65)
        (nine_type 40 (key_of_9 39 64 ∷ key_of_9 40 65 ∷ [])
        (key_of_9 39 64 ∷ key_of_9 40 65 ∷ [])) }
    // MakesCall.next.
    ensures counted_twice { ¬ WorldStep
        (nine_type 40 (key_of_9 39 64 ∷ []) (key_of_9 39 64 ∷ [])) 9 (deed.Press 65)
        (nine_type 42 (key_of_9 39 64 ∷ key_of_9 40 65 ∷ [])
        (key_of_9 39 64 ∷ key_of_9 40 65 ∷ [])) }
    // MakesCall.next, where nothing is typed.
    ensures tick_counts { ¬ WorldStep (nine_type 40 [] []) 9 deed.Tick (nine_type 41 [] []) }
    // fresh.next.
    ensures start_goes_on { ¬ WorldStep (nine_fell kept_third) 9 (deed.Start kept_third)
        (nine (seat_up (kept_by 4 (ballot_by 7 40)) [] (up_next 40 [])) [] []) }
{}

/// A tick submits no second key that waits without the first, and no key that no longer waits.
pub fn wrong_batches()
    // SubmitsWaiting.front: from the first on.
    ensures second_alone { ¬ WorldStep (nine_submit both_keys both_keys []) 9 deed.Tick
        (nine_submit both_keys both_keys (Keys 9 3 41 (66 ∷ []) ∷ [])) }
    // SubmitsWaiting.front: that it waits.
    ensures one_that_left { ¬ WorldStep
        (nine_submit (key_of_9 41 66 ∷ []) both_keys []) 9 deed.Tick
        (nine_submit (key_of_9 41 66 ∷ []) both_keys (Keys 9 3 40 (65 ∷ []) ∷ [])) }
{}
