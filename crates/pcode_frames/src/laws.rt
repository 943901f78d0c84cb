//! Laws of the definitions, each the contract of a function that does nothing.
ghost use Rattle.std.specs.Prelude.{◌≡◌, ◌≢◌, ◌↔◌, ◌⊎◌, ◌+◌, ◌*◌, ◌/◌, ◌%◌, ◌<◌, ◌≤◌, ℕ, zero, suc, IsSome, IsTrue, List, [], ◌∷◌, ◌++◌, length, take, drop, replicate, slice_get, Some, None, Ok, Err, ℤ, pos};
ghost use Rattle.pcode_frames.specs.declared.limits.TheConstants.{LIVE_WORDS, MOST_FRAMES, STACK_WORDS};
ghost use Rattle.pcode_frames.specs.declared.frame.Frame.{Frame};
ghost use Rattle.pcode_frames.specs.declared.halt.Halt.TheVariants.{Empty, Overflow, BadMemory};
ghost use Rattle.pcode_frames.specs.Blocks.{is_live, block_of, with_block};
ghost use Rattle.pcode_frames.specs.Frames.{Space, current_of, halt_number, link_up_of, space, space_after_call, space_after_ret, space_after_start};
ghost use Rattle.pcode_frames.specs.Words.{live_byte_at, live_word_at, with_byte, with_word};

/// The live words are words 1 up to their number. A word that was stored is read, and each other
/// word stays. No word comes or goes.
pub fn words_are_apart()
    ensures live { (live : List ℕ) (k : ℕ) →
        IsSome (live_word_at live k) ↔ ((1 ≤ k) × (k ≤ length live)) }
    ensures got { (live : List ℕ) (k value : ℕ) → IsSome (live_word_at live k) →
        live_word_at (with_word live k value) k ≡ Some value }
    ensures others { (live : List ℕ) (k j value : ℕ) → j ≢ k →
        live_word_at (with_word live k value) j ≡ live_word_at live j }
    ensures size { (live : List ℕ) (k value : ℕ) → length (with_word live k value) ≡ length live }
{}

/// A live word is its two bytes, the low one at its even address, and no other byte is live. A byte
/// that was stored is read, and each other byte stays.
pub fn bytes_are_apart()
    ensures low { (live : List ℕ) (k w : ℕ) → live_word_at live k ≡ Some w →
        live_byte_at live (pos (2 * k)) ≡ Some (w % 256) }
    ensures high { (live : List ℕ) (k w : ℕ) → live_word_at live k ≡ Some w →
        live_byte_at live (pos (2 * k + 1)) ≡ Some (w / 256) }
    ensures live { (live : List ℕ) (a : ℤ) → IsSome (live_byte_at live a) →
        (k : ℕ) × IsSome (live_word_at live k) × ((a ≡ pos (2 * k)) ⊎ (a ≡ pos (2 * k + 1))) }
    ensures got { (live : List ℕ) (a : ℤ) (b : ℕ) → b < 256 → IsSome (live_byte_at live a) →
        live_byte_at (with_byte live a b) a ≡ Some b }
    ensures others { (live : List ℕ) (a c : ℤ) (b : ℕ) → b < 256 → c ≢ a →
        live_byte_at (with_byte live a b) c ≡ live_byte_at live c }
    ensures size { (live : List ℕ) (a : ℤ) (b : ℕ) → length (with_byte live a b) ≡ length live }
{}

/// A block is live exactly if each of its words is. It is these words in order. A block that was
/// stored is read, and each word outside of it stays.
pub fn blocks_are_words()
    ensures live { (live : List ℕ) (word n : ℕ) →
        IsTrue (is_live live word n) ↔ ((k : ℕ) → k < n → IsSome (live_word_at live (word + k))) }
    ensures words { (live : List ℕ) (word n k : ℕ) → IsTrue (is_live live word n) → k < n →
        slice_get (block_of live word n) k ≡ live_word_at live (word + k) }
    ensures size { (live : List ℕ) (word n : ℕ) → IsTrue (is_live live word n) →
        length (block_of live word n) ≡ n }
    ensures got { (live block : List ℕ) (word k : ℕ) → IsTrue (is_live live word (length block)) →
        k < length block → live_word_at (with_block live word block) (word + k)
        ≡ slice_get block k }
    ensures others { (live block : List ℕ) (word j : ℕ) →
        IsTrue (is_live live word (length block)) → (j < word) ⊎ (word + length block ≤ j) →
        live_word_at (with_block live word block) j ≡ live_word_at live j }
{}

/// A return right after a call leaves words and frames as they were, and of the stack what is below
/// the parameters. Above it are the first words of the frame: the parameters in the order in which
/// they were on the stack, then zeros. The frame knows where its caller goes on.
pub fn return_undoes_call()
    ensures words { (procedure params vars link back n : ℕ) (p q r : Space) (f : Frame) →
        space_after_call procedure params vars link back p ≡ Ok q → current_of q.frames ≡ Some f →
        space_after_ret n f q ≡ Ok r → r.words ≡ p.words }
    ensures frames { (procedure params vars link back n : ℕ) (p q r : Space) (f : Frame) →
        space_after_call procedure params vars link back p ≡ Ok q → current_of q.frames ≡ Some f →
        space_after_ret n f q ≡ Ok r → r.frames ≡ p.frames }
    ensures stack { (procedure params vars link back n : ℕ) (p q r : Space) (f : Frame) →
        space_after_call procedure params vars link back p ≡ Ok q → current_of q.frames ≡ Some f →
        space_after_ret n f q ≡ Ok r →
        r.stack ≡ take n (take params p.stack ++ replicate vars 0) ++ drop params p.stack }
    ensures frame { (procedure params vars link back : ℕ) (p q : Space) (f : Frame) →
        space_after_call procedure params vars link back p ≡ Ok q → current_of q.frames ≡ Some f →
        (f.procedure ≡ procedure) × (f.link ≡ link) × (f.back ≡ back)
        × (f.size ≡ params + vars) }
    ensures few { (procedure params vars link back n : ℕ) (p q r : Space) (f : Frame) →
        space_after_call procedure params vars link back p ≡ Ok q → current_of q.frames ≡ Some f →
        space_after_ret n f q ≡ Ok r → n ≤ f.size }
{}

/// A call is refused exactly if parameters are missing, or one frame more or its words do not fit.
/// A return is refused exactly if a result is not live, or the results do not fit on the stack.
pub fn calls_fit()
    ensures empty { (procedure params vars link back : ℕ) (p : Space) →
        (space_after_call procedure params vars link back p ≡ Err Empty)
        ↔ (length p.stack < params) }
    ensures room { (procedure params vars link back : ℕ) (p : Space) →
        ((q : Space) × (space_after_call procedure params vars link back p ≡ Ok q))
        ↔ ((params ≤ length p.stack) × (length p.frames + 1 ≤ MOST_FRAMES)
        × (length p.words + params + vars ≤ LIVE_WORDS)) }
    ensures dead { (n : ℕ) (f : Frame) (p : Space) →
        (space_after_ret n f p ≡ Err BadMemory) ↔ (length p.words < f.base + n) }
    ensures results { (n : ℕ) (f : Frame) (p : Space) →
        ((q : Space) × (space_after_ret n f p ≡ Ok q))
        ↔ ((f.base + n ≤ length p.words) × (length p.stack + n ≤ STACK_WORDS)) }
{}

/// The main frame has words 1 and on, all zero, and takes nothing from the stack.
pub fn main_frame_is_zero()
    ensures words { (size : ℕ) (q : Space) → space_after_start size (space [] [] []) ≡ Ok q →
        q.words ≡ replicate size 0 }
    ensures frame { (size : ℕ) (q : Space) → space_after_start size (space [] [] []) ≡ Ok q →
        (f : Frame) × (q.frames ≡ f ∷ []) × (f.procedure ≡ 1) × (f.base ≡ 0) × (f.size ≡ size)
        × (f.link ≡ 0) }
    ensures fits { (size : ℕ) →
        ((q : Space) × (space_after_start size (space [] [] []) ≡ Ok q)) ↔ (size ≤ LIVE_WORDS) }
{}

/// No link up from the current frame is that frame. One link more leads to the frame of the last
/// one's static link, and from the main frame nowhere.
pub fn links_are_followed()
    ensures none { (main : Frame) (frames : List Frame) →
        link_up_of (main ∷ frames) 0 ≡ Some (length frames) }
    ensures one_more { (frames : List Frame) (n i : ℕ) (f : Frame) →
        link_up_of frames n ≡ Some (suc i) → slice_get frames (suc i) ≡ Some f →
        link_up_of frames (suc n) ≡ Some f.link }
    ensures main { (frames : List Frame) (n : ℕ) → link_up_of frames n ≡ Some 0 →
        link_up_of frames (suc n) ≡ None }
{}

/// A refusal has the number of the execution error that the manual gives to it: a stack that has
/// too few words is 0, one that overflows is 4, and a bad address is 7.
pub fn halts_are_numbered()
    ensures empty { halt_number Empty ≡ 0 }
    ensures overflow { halt_number Overflow ≡ 4 }
    ensures bad_memory { halt_number BadMemory ≡ 7 }
{}
