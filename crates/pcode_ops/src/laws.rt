//! Laws of decoding and loading: contracts of functions that do nothing.
ghost use Rattle.std.specs.Prelude.{◌≡◌, ℕ, ◌↔◌, ◌⊎◌, ◌+◌, ◌-◌, ◌*◌, ◌<◌, ◌≤◌, ◌+ℤ◌, ◌≤ℤ◌, pos, IsTrue, List, ℤ, take, Ok, Err, Some};
ghost use Rattle.pcode_file.specs.declared.file.Proc.{Proc};
ghost use Rattle.pcode_file.specs.InFile.{AreProcs};
ghost use Rattle.pcode_file.specs.Parts.{Parts, procedure_of};
ghost use Rattle.pcode_ops.specs.declared.instr.Instr.{Instr};
ghost use Rattle.pcode_ops.specs.declared.instr.Instr.TheVariants.{Efj, Fjp, Nfj, Rbp, Rnp, Ujp, Xjp};
ghost use Rattle.pcode_ops.specs.declared.fault.OpFault.{OpFault};
ghost use Rattle.pcode_ops.specs.declared.fault.OpFault.TheVariants.{Cut};
ghost use Rattle.pcode_ops.specs.declared.loading.Onward.{Onward};
ghost use Rattle.pcode_ops.specs.At.{At, HasElements, cases};
ghost use Rattle.pcode_ops.specs.Decoding.{instr_at};
ghost use Rattle.pcode_ops.specs.Faults.{HasFirstFault, IsOutside, IsUnread, MayNotFlow, MayNotHold, Owns, StandsAt};
ghost use Rattle.pcode_ops.specs.Jumps.{StaysWith, case_of, IsCaseTable};
ghost use Rattle.pcode_ops.specs.Loading.{is_in, owner, legal, jump_to, flow_of, onward, look, IsFaulty, IsFine, LeadsTo, HasNext, JumpsBy};
ghost use Rattle.pcode_ops.specs.Reach.{Reach, IsLoadable, MayStand};
ghost use Rattle.pcode_ops.specs.Rules.{MayHold, JumpsTo, Leads, MayFlow};
ghost use Rattle.pcode_ops.specs.Staying.{StaysInPart};

/// Decoding as a function and as a relation are one: it gives the instruction that is at an offset,
/// and no other is there.
pub fn decoding_is_at()
    ensures { (code : List ℕ) (i : ℕ) (instr : Instr) (j : ℕ) →
        (instr_at code i ≡ Ok (instr, j)) ↔ At code i instr j }
{}

/// What is decoded has packed elements that fit a word, if any.
pub fn packing_is_checked()
    ensures { (code : List ℕ) (i : ℕ) (instr : Instr) (j : ℕ) →
        instr_at code i ≡ Ok (instr, j) → HasElements instr }
{}

/// What is decoded in the front of a code is decoded in the whole code too.
pub fn same_in_longer_code()
    ensures { (code : List ℕ) (e i : ℕ) (found : Instr × ℕ) →
        instr_at (take e code) i ≡ Ok found → instr_at code i ≡ Ok found }
{}

/// All bytes of an instruction at a reached offset of a loadable file lie in a procedure's part,
/// and it leads only into that part.
pub fn reached_stays_in_part()
    ensures { (p : Parts) (i : ℕ) → IsLoadable p → Reach p i → (q : Proc) × StaysInPart p i q }
{}

/// What the checks accept, the rules allow in that procedure, and the other way round: the checks
/// are of calls, static links and returns, and the rules are a relation.
pub fn legal_iff_may_hold()
    ensures { (procs : List Proc) (q : Proc) (instr : Instr) →
        (legal procs q instr ≡ Ok tt) ↔ MayHold procs q instr }
{}

/// The target of a jump, as a function and as a relation, is the same.
pub fn jump_leads()
    ensures { (segment : List ℕ) (q : Proc) (sb : ℤ) (j t : ℕ) →
        (jump_to segment q sb j ≡ Ok t) ↔ JumpsTo segment q sb j t }
{}

/// The offsets that an instruction may lead to are those that the rules of its flow give. All of
/// them are in its procedure's part exactly if the rules hold.
pub fn onward_is_led_to()
    ensures leads { (segment : List ℕ) (q : Proc) (instr : Instr) (j t : ℕ) (o : Onward) →
        onward segment q instr j ≡ Ok o →
        LeadsTo segment o t ↔ Leads segment q (flow_of instr) j t }
    ensures flows { (segment : List ℕ) (q : Proc) (instr : Instr) (j : ℕ) →
        ((o : Onward) × (onward segment q instr j ≡ Ok o)) ↔ MayFlow segment q (flow_of instr) j }
{}

/// An offset in the part of a procedure lies in no other part, and that procedure owns it.
pub fn parts_are_apart()
    ensures { (p : Parts) (n i : ℕ) (q : Proc) → AreProcs p.segment p.procs →
        procedure_of p.procs n ≡ Some q → IsTrue (is_in q i) → owner p.procs i ≡ Ok q }
{}

/// ENTER of a procedure is reached, and the procedure is its owner.
pub fn enter_is_owned()
    ensures { (p : Parts) (n : ℕ) (q : Proc) → AreProcs p.segment p.procs →
        procedure_of p.procs n ≡ Some q → Reach p q.enter × (owner p.procs q.enter ≡ Ok q) }
{}

/// EXIT of a procedure is reached, and the procedure is its owner.
pub fn exit_is_owned()
    ensures { (p : Parts) (n : ℕ) (q : Proc) → AreProcs p.segment p.procs →
        procedure_of p.procs n ≡ Some q → Reach p q.exit × (owner p.procs q.exit ≡ Ok q) }
{}

/// UJP, XJP, RNP and RBP have no next offset, and each other instruction has one. UJP, FJP, EFJ and
/// NFJ are the jumps by an operand.
pub fn flows_go_on()
    ensures ends { (low high sb : ℤ) (table n : ℕ) → (¬ (HasNext (Ujp sb)))
        × (¬ (HasNext (Xjp low high sb table))) × (¬ (HasNext (Rnp n))) × (¬ (HasNext (Rbp n))) }
    ensures others { (instr : Instr) → HasNext instr ⊎ ((sb : ℤ) × (instr ≡ Ujp sb))
        ⊎ ((low : ℤ) × (high : ℤ) × (sb : ℤ) × (table : ℕ) × (instr ≡ Xjp low high sb table))
        ⊎ ((n : ℕ) × (instr ≡ Rnp n)) ⊎ ((n : ℕ) × (instr ≡ Rbp n)) }
    ensures jumps { (sb : ℤ) → JumpsBy (Ujp sb) sb × JumpsBy (Fjp sb) sb × JumpsBy (Efj sb) sb
        × JumpsBy (Nfj sb) sb }
    ensures by { (instr : Instr) (sb : ℤ) → JumpsBy instr sb →
        (instr ≡ Ujp sb) ⊎ (instr ≡ Fjp sb) ⊎ (instr ≡ Efj sb) ⊎ (instr ≡ Nfj sb) }
{}

/// What is decoded at a reached offset of a loadable file is legal in the procedure that owns the
/// offset.
pub fn reached_may_stand()
    ensures { (p : Parts) (i : ℕ) (q : Proc) (instr : Instr) (next : ℕ) →
        AreProcs p.segment p.procs → IsLoadable p → Reach p i → owner p.procs i ≡ Ok q →
        instr_at p.segment i ≡ Ok (instr, next) → MayStand p q instr next }
{}

/// The offset after an instruction that goes on there is reached, and owned by the instruction's
/// procedure.
pub fn next_is_owned()
    ensures { (p : Parts) (q : Proc) (instr : Instr) (next : ℕ) →
        MayStand p q instr next → HasNext instr → Reach p next × (owner p.procs next ≡ Ok q) }
{}

/// A jump leads to an offset that is reached and owned by the jump's procedure.
pub fn jump_is_led_to()
    ensures { (p : Parts) (n : ℕ) (q : Proc) (instr : Instr) (sb : ℤ) (next : ℕ) →
        JumpsBy instr sb → MayStand p q instr next → procedure_of p.procs n ≡ Some q →
        StaysWith p n q sb next }
{}

/// A case jump leads for each word to one of its targets, and its table lies in the segment.
pub fn case_is_led_to()
    ensures leads { (p : Parts) (q : Proc) (low high sb : ℤ) (table next w : ℕ) →
        (m : MayStand p q (Xjp low high sb table) next) →
        LeadsTo p.segment m.leads (case_of p.segment low high table w) }
    ensures table { (p : Parts) (i : ℕ) (q : Proc) (low high sb : ℤ) (table next : ℕ) →
        instr_at p.segment i ≡ Ok (Xjp low high sb table, next) →
        MayStand p q (Xjp low high sb table) next → IsCaseTable p.segment q low high table }
{}

/// The UJP of a case jump stands right before its table, which ends where the case jump ends. The
/// table has a word for each number from W1 to W2.
pub fn case_jump_has_its_jump()
    ensures jump { (code : List ℕ) (i : ℕ) (low high sb : ℤ) (table j : ℕ) →
        At code i (Xjp low high sb table) j → At code (table - 2) (Ujp sb) table }
    ensures after { (code : List ℕ) (i : ℕ) (low high sb : ℤ) (table j : ℕ) →
        At code i (Xjp low high sb table) j → (i < table - 2) × (table ≤ j) }
    ensures table { (code : List ℕ) (i : ℕ) (low high sb : ℤ) (table j k : ℕ) →
        At code i (Xjp low high sb table) j → (k < cases low high) ↔ (table + 2 * k + 2 ≤ j) }
    ensures numbers { (code : List ℕ) (i : ℕ) (low high sb : ℤ) (table j k : ℕ) →
        At code i (Xjp low high sb table) j → (k < cases low high) ↔ ((low +ℤ pos k) ≤ℤ high) }
{}

/// The owner of an offset is the one procedure of a file in whose part the offset lies. An offset
/// without an owner lies in no part, and is faulty as cut off.
pub fn owner_has_the_offset()
    ensures found { (p : Parts) (i : ℕ) (q : Proc) → AreProcs p.segment p.procs →
        (owner p.procs i ≡ Ok q) ↔ Owns p.procs i q }
    ensures none { (procs : List Proc) (i : ℕ) (f : OpFault) →
        (owner procs i ≡ Err f) ↔ ((f ≡ Cut) × IsOutside procs i) }
{}

/// An offset is without fault exactly where an instruction stands within a procedure's part, may be
/// held by that procedure, and leads nowhere out of the part. It leads where the rules say.
pub fn fine_iff_stands()
    ensures fine { (p : Parts) (i : ℕ) → AreProcs p.segment p.procs →
        IsFine p i ↔ ((q : Proc) × (instr : Instr) × (j : ℕ) × StandsAt p i q instr j) }
    ensures leads { (p : Parts) (i : ℕ) (q : Proc) (instr : Instr) (j : ℕ) (o : Onward) →
        AreProcs p.segment p.procs → StandsAt p i q instr j → look p i ≡ Ok o →
        (t : ℕ) → LeadsTo p.segment o t ↔ Leads p.segment q (flow_of instr) j t }
{}

/// A fault is told exactly where its check fails and each earlier one passes: first the procedure's
/// part, then the bytes, then what the procedure may hold, then where the instruction leads. No
/// offset has two first faults.
pub fn first_fault_is_of_its_check()
    ensures bytes { (code : List ℕ) (i : ℕ) (f : OpFault) →
        (instr_at code i ≡ Err f) ↔ IsUnread code i f }
    ensures held { (procs : List Proc) (q : Proc) (instr : Instr) (f : OpFault) →
        (legal procs q instr ≡ Err f) ↔ MayNotHold procs q instr f }
    ensures flows { (segment : List ℕ) (q : Proc) (instr : Instr) (j : ℕ) (f : OpFault) →
        (onward segment q instr j ≡ Err f) ↔ MayNotFlow segment q (flow_of instr) j f }
    ensures fault { (p : Parts) (i : ℕ) (f : OpFault) → AreProcs p.segment p.procs →
        IsFaulty p i f ↔ HasFirstFault p i f }
    ensures one { (p : Parts) (i : ℕ) (f g : OpFault) → AreProcs p.segment p.procs →
        HasFirstFault p i f → HasFirstFault p i g → f ≡ g }
{}
