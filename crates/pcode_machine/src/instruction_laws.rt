//! Laws of single instructions, by family, each the contract of a function that does nothing. They
//! tie the line of an instruction to the words of which the laws in `laws` speak.
ghost use Rattle.std.specs.Prelude.{◌≡◌, ◌≢◌, ◌+◌, ◌%◌, ◌≤◌, ◌==◌, if◌then◌else◌, ℕ, ℤ, List, ◌∷◌, length, Some, Ok, Err};
ghost use Rattle.pcode_file.specs.Parts.{Parts};
ghost use Rattle.pcode_ops.specs.declared.instr.Instr.TheVariants.{Sldc, Ldcn, Ldci, Sldl, Ldl, Stl, Lla, Sldo, Ldo, Sro, Lao, Lod, Str, Lda, Sto, Sind, Ind, Inc, Ixa, Mov, Ldm, Stm, Ldb, Stb, Ixp, Ldp, Stp, Adi, Sbi, Mpi, Dvi, Modi, Abi, Ngi, Sqi, Chk, Land, Lor, Lnot, Equi, Neqi, Leqi, Lesi, Geqi, Grti, Equ, Neq, Leq, Les, Geq, Grt, Ujp, Fjp, Efj, Nfj, Csp, Rbp, Nop};
ghost use Rattle.pcode_ops.specs.declared.instr.StandardProcedure.TheVariants as standard;
ghost use Rattle.pcode_ops.specs.Jumps.{jump_in};
ghost use Rattle.pcode_frames.specs.declared.frame.Frame.{Frame};
ghost use Rattle.pcode_frames.specs.declared.limits.TheConstants.{LIVE_WORDS, STACK_WORDS};
ghost use Rattle.pcode_machine.specs.declared.comparisons.Comparison.TheVariants.{Equal, NotEqual, LessOrEqual, Less, GreaterOrEqual, Greater};
ghost use Rattle.pcode_machine.specs.declared.errors.ExecutionError.TheVariants.{NoUnit, Halted};
ghost use Rattle.pcode_machine.specs.declared.turn.Stop.TheVariants.{Normal, Error};
ghost use Rattle.pcode_machine.specs.Arithmetic.{absolute_of, both_of, checked_of, complement_of, difference_of, either_of, element_of, negation_of, product_of, quotient_of, remainder_of, square_of, sum_of};
ghost use Rattle.pcode_machine.specs.Blocks.{block_loaded, block_moved, block_stored};
ghost use Rattle.pcode_machine.specs.Bytes.{byte_loaded, byte_stored};
ghost use Rattle.pcode_machine.specs.Comparisons.{compared, compared_bits};
ghost use Rattle.pcode_machine.specs.Configuration.{State, current_of};
ghost use Rattle.pcode_machine.specs.Doing.{MakesStack};
ghost use Rattle.pcode_machine.specs.Execute.{execute};
ghost use Rattle.pcode_machine.specs.Fields.{field_indexed, field_loaded, field_stored};

/// SLDC and LDCI push their word, and LDCN the word 0.
pub fn constants_are_pushed()
    ensures { (p : Parts) (f : Frame) (j n : ℕ) (s : State) (rest : List ℕ) →
        length rest + 1 ≤ STACK_WORDS → MakesStack p f (Sldc n) j s rest (n ∷ rest)
        × MakesStack p f (Ldci n) j s rest (n ∷ rest) × MakesStack p f Ldcn j s rest (0 ∷ rest) }
{}

/// A word that a frame's address names is the word at that pointer: LLA, LDA and LAO push pointers
/// by which SIND loads what LDL, LOD and LDO load, and STO stores where STL, STR and SRO store. The
/// short forms load the same words, and SIND and INC count words.
pub fn addresses_name_words()
    ensures own { (p : Parts) (f : Frame) (n i j : ℕ) (s t u : State) →
        length s.words ≤ LIVE_WORDS → execute p f (Lla n) i s ≡ Some (Ok u) →
        execute p f (Ldl n) j s ≡ Some (Ok t) → execute p f (Sind 0) j u ≡ Some (Ok t) }
    ensures outer { (p : Parts) (f : Frame) (levels n i j : ℕ) (s t u : State) →
        length s.words ≤ LIVE_WORDS → execute p f (Lda levels n) i s ≡ Some (Ok u) →
        execute p f (Lod levels n) j s ≡ Some (Ok t) → execute p f (Sind 0) j u ≡ Some (Ok t) }
    ensures main { (p : Parts) (f : Frame) (n i j : ℕ) (s t u : State) →
        length s.words ≤ LIVE_WORDS → execute p f (Lao n) i s ≡ Some (Ok u) →
        execute p f (Ldo n) j s ≡ Some (Ok t) → execute p f (Sind 0) j u ≡ Some (Ok t) }
    ensures own_stored { (p : Parts) (f : Frame) (n i j v : ℕ) (s t u : State) (rest : List ℕ) →
        length s.words ≤ LIVE_WORDS →
        execute p f (Lla n) i (record s { stack = rest }) ≡ Some (Ok u) →
        execute p f (Stl n) j (record s { stack = v ∷ rest }) ≡ Some (Ok t) →
        execute p f Sto j (record u { stack = v ∷ u.stack }) ≡ Some (Ok t) }
    ensures outer_stored { (p : Parts) (f : Frame) (levels n i j v : ℕ) (s t u : State)
        (rest : List ℕ) → length s.words ≤ LIVE_WORDS →
        execute p f (Lda levels n) i (record s { stack = rest }) ≡ Some (Ok u) →
        execute p f (Str levels n) j (record s { stack = v ∷ rest }) ≡ Some (Ok t) →
        execute p f Sto j (record u { stack = v ∷ u.stack }) ≡ Some (Ok t) }
    ensures main_stored { (p : Parts) (f : Frame) (n i j v : ℕ) (s t u : State)
        (rest : List ℕ) → length s.words ≤ LIVE_WORDS →
        execute p f (Lao n) i (record s { stack = rest }) ≡ Some (Ok u) →
        execute p f (Sro n) j (record s { stack = v ∷ rest }) ≡ Some (Ok t) →
        execute p f Sto j (record u { stack = v ∷ u.stack }) ≡ Some (Ok t) }
    ensures short { (p : Parts) (f : Frame) (n j : ℕ) (s : State) →
        (execute p f (Sldl n) j s ≡ execute p f (Ldl n) j s)
        × (execute p f (Sldo n) j s ≡ execute p f (Ldo n) j s)
        × (execute p f (Ind n) j s ≡ execute p f (Sind n) j s) }
    ensures levels { (p : Parts) (f : Frame) (n j : ℕ) (s : State) →
        current_of s.frames ≡ Some f →
        execute p f (Lod 0 n) j s ≡ execute p f (Ldl n) j s }
    ensures moved { (p : Parts) (f : Frame) (n i j q : ℕ) (s u : State) (rest : List ℕ) →
        execute p f (Inc n) i (record s { stack = q ∷ rest }) ≡ Some (Ok u) →
        execute p f (Sind 0) j u ≡ execute p f (Sind n) j (record s { stack = q ∷ rest }) }
{}

/// An operation on two words takes the lower one first, and its result takes their place. One on a
/// single word replaces it. An IXA has the index above the pointer.
pub fn operands_are_in_order()
    ensures arithmetic { (p : Parts) (f : Frame) (j a b : ℕ) (s : State) (rest : List ℕ) →
        MakesStack p f Adi j s (b ∷ a ∷ rest) (sum_of a b ∷ rest)
        × MakesStack p f Sbi j s (b ∷ a ∷ rest) (difference_of a b ∷ rest)
        × MakesStack p f Mpi j s (b ∷ a ∷ rest) (product_of a b ∷ rest) }
    ensures quotient { (p : Parts) (f : Frame) (j a b v : ℕ) (s : State) (rest : List ℕ) →
        quotient_of a b ≡ Ok v → MakesStack p f Dvi j s (b ∷ a ∷ rest) (v ∷ rest) }
    ensures remainder { (p : Parts) (f : Frame) (j a b v : ℕ) (s : State) (rest : List ℕ) →
        remainder_of a b ≡ Ok v → MakesStack p f Modi j s (b ∷ a ∷ rest) (v ∷ rest) }
    ensures logic { (p : Parts) (f : Frame) (j a b : ℕ) (s : State) (rest : List ℕ) →
        MakesStack p f Land j s (b ∷ a ∷ rest) (both_of a b ∷ rest)
        × MakesStack p f Lor j s (b ∷ a ∷ rest) (either_of a b ∷ rest)
        × MakesStack p f Lnot j s (a ∷ rest) (complement_of a ∷ rest) }
    ensures signs { (p : Parts) (f : Frame) (j a : ℕ) (s : State) (rest : List ℕ) →
        MakesStack p f Abi j s (a ∷ rest) (absolute_of a ∷ rest)
        × MakesStack p f Ngi j s (a ∷ rest) (negation_of a ∷ rest)
        × MakesStack p f Sqi j s (a ∷ rest) (square_of a ∷ rest) }
    ensures words { (p : Parts) (f : Frame) (j a b : ℕ) (s : State) (rest : List ℕ) →
        MakesStack p f Equi j s (b ∷ a ∷ rest) (compared Equal a b ∷ rest)
        × MakesStack p f Neqi j s (b ∷ a ∷ rest) (compared NotEqual a b ∷ rest)
        × MakesStack p f Leqi j s (b ∷ a ∷ rest) (compared LessOrEqual a b ∷ rest)
        × MakesStack p f Lesi j s (b ∷ a ∷ rest) (compared Less a b ∷ rest)
        × MakesStack p f Geqi j s (b ∷ a ∷ rest) (compared GreaterOrEqual a b ∷ rest)
        × MakesStack p f Grti j s (b ∷ a ∷ rest) (compared Greater a b ∷ rest) }
    ensures bits { (p : Parts) (f : Frame) (j a b : ℕ) (s : State) (rest : List ℕ) →
        MakesStack p f Equ j s (b ∷ a ∷ rest) (compared_bits Equal a b ∷ rest)
        × MakesStack p f Neq j s (b ∷ a ∷ rest) (compared_bits NotEqual a b ∷ rest)
        × MakesStack p f Leq j s (b ∷ a ∷ rest) (compared_bits LessOrEqual a b ∷ rest)
        × MakesStack p f Les j s (b ∷ a ∷ rest) (compared_bits Less a b ∷ rest)
        × MakesStack p f Geq j s (b ∷ a ∷ rest) (compared_bits GreaterOrEqual a b ∷ rest)
        × MakesStack p f Grt j s (b ∷ a ∷ rest) (compared_bits Greater a b ∷ rest) }
    ensures check { (p : Parts) (f : Frame) (j v low high w : ℕ) (s : State) (rest : List ℕ) →
        checked_of v low high ≡ Ok w → MakesStack p f Chk j s (high ∷ low ∷ v ∷ rest) (w ∷ rest) }
    ensures element { (p : Parts) (f : Frame) (j pointer index words : ℕ) (s : State)
        (rest : List ℕ) → MakesStack p f (Ixa words) j s (index ∷ pointer ∷ rest)
        (element_of pointer index words ∷ rest) }
{}

/// MOV, LDM, STM, LDB, STB, IXP, LDP and STP do to blocks, bytes and fields what the laws of these
/// say.
pub fn memory_is_moved()
    ensures blocks { (p : Parts) (f : Frame) (n j : ℕ) (s : State) →
        (execute p f (Mov n) j s ≡ Some (block_moved n j s s.stack))
        × (execute p f (Ldm n) j s ≡ Some (block_loaded n j s s.stack))
        × (execute p f (Stm n) j s ≡ Some (block_stored n j s)) }
    ensures bytes { (p : Parts) (f : Frame) (j : ℕ) (s : State) →
        (execute p f Ldb j s ≡ Some (byte_loaded j s s.stack))
        × (execute p f Stb j s ≡ Some (byte_stored j s s.stack)) }
    ensures fields { (p : Parts) (f : Frame) (elements width j : ℕ) (s : State) →
        (execute p f (Ixp elements width) j s
        ≡ Some (field_indexed elements width j s s.stack))
        × (execute p f Ldp j s ≡ Some (field_loaded j s s.stack))
        × (execute p f Stp j s ≡ Some (field_stored j s s.stack)) }
{}

/// UJP jumps always, FJP exactly if the low bit of the word on top is 0, EFJ exactly if the two
/// words on top differ, and NFJ exactly if they are the same. They pop these words, and change
/// nothing else.
pub fn jumps_are_by_the_top()
    ensures always { (p : Parts) (f : Frame) (sb : ℤ) (j to : ℕ) (s : State) →
        jump_in p f.procedure sb j ≡ Some to →
        execute p f (Ujp sb) j s ≡ Some (Ok (record s { next = to })) }
    ensures clear { (p : Parts) (f : Frame) (sb : ℤ) (j to v : ℕ) (s : State) (rest : List ℕ) →
        jump_in p f.procedure sb j ≡ Some to →
        execute p f (Fjp sb) j (record s { stack = v ∷ rest }) ≡ Some (Ok (record s {
          stack = rest;
          next = if v % 2 == 0 then to else j;
        })) }
    ensures equal { (p : Parts) (f : Frame) (sb : ℤ) (j to a : ℕ) (s : State) (rest : List ℕ) →
        jump_in p f.procedure sb j ≡ Some to →
        (execute p f (Efj sb) j (record s { stack = a ∷ a ∷ rest })
        ≡ Some (Ok (record s { stack = rest; next = j })))
        × (execute p f (Nfj sb) j (record s { stack = a ∷ a ∷ rest })
        ≡ Some (Ok (record s { stack = rest; next = to }))) }
    ensures different { (p : Parts) (f : Frame) (sb : ℤ) (j to a b : ℕ) (s : State)
        (rest : List ℕ) → jump_in p f.procedure sb j ≡ Some to → a ≢ b →
        (execute p f (Efj sb) j (record s { stack = b ∷ a ∷ rest })
        ≡ Some (Ok (record s { stack = rest; next = to })))
        × (execute p f (Nfj sb) j (record s { stack = b ∷ a ∷ rest })
        ≡ Some (Ok (record s { stack = rest; next = j }))) }
{}

/// CSP 34 pushes IORESULT. CSP 0 goes on if it is 0, and is error 10 otherwise. CSP 39 is error 14.
/// RBP ends the program, and NOP only goes on.
pub fn others_are_alone()
    ensures result { (p : Parts) (f : Frame) (j : ℕ) (s : State) (rest : List ℕ) →
        length rest + 1 ≤ STACK_WORDS →
        MakesStack p f (Csp standard.IoResult) j s rest (s.io_result ∷ rest) }
    ensures check { (p : Parts) (f : Frame) (j : ℕ) (s : State) → execute p f
        (Csp standard.IoCheck) j s ≡ Some (if s.io_result == 0 then Ok (record s { next = j })
        else Err (Error NoUnit)) }
    ensures halt { (p : Parts) (f : Frame) (j : ℕ) (s : State) →
        execute p f (Csp standard.Halt) j s ≡ Some (Err (Error Halted)) }
    ensures end { (p : Parts) (f : Frame) (n j : ℕ) (s : State) →
        execute p f (Rbp n) j s ≡ Some (Err Normal) }
    ensures nothing { (p : Parts) (f : Frame) (j : ℕ) (s : State) →
        execute p f Nop j s ≡ Some (Ok (record s { next = j })) }
{}
