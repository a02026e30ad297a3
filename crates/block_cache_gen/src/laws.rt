ghost use Rattle.std.specs.Prelude.{◌≡◌, Bool, List};
ghost use Rattle.gr_word.specs.declared.variables.Label.TheVariants.{Secret};
ghost use Rattle.lt_isa.specs.Prelude.{Parts};
ghost use Rattle.lt_isa.specs.declared.instructions.Instr.{Instr};
ghost use Rattle.src_tree.specs.Prelude.{context_of, Block, Statement, Tree, source_of, TypedStatement, TypedTree};
ghost use Rattle.bank_alloc.specs.Prelude.{IsLaidOut};
ghost use Rattle.block_cache_gen.specs.declared.frames.Frame.{Frame};
ghost use Rattle.block_cache_gen.specs.Alike.{Alike, IsPairCount, Pair, pair_count};
ghost use Rattle.block_cache_gen.specs.Homes.{HasHomes, Setting};
ghost use Rattle.block_cache_gen.specs.PatternsOf.{pattern_of_expr, pattern_of_set, slots_of_expr, slots_of_set};
ghost use Rattle.block_cache_gen.specs.Settings.{IsFrame, setting_of};
ghost use Rattle.block_cache_gen.specs.StoredWords.{written_words};
ghost use Rattle.block_cache_gen.specs.Twins.{DifferInLastWritten, Mirrors};

/// Does nothing; its clause says of which objects the calls' clauses speak: each that has the profile of a frame, and its
/// variables at the frame's places, has the homes of its variables.
pub fn home_laws()
    ensures homes { (f : Frame) (o : Parts)
        → IsFrame f
        → o.profile ≡ f.profile.now
        → IsLaidOut (source_of f.program.now) f.profile.now.block_log f.places.now.of_var.items f.places.now.blocks.items o
        → HasHomes o (setting_of f) }
{}

/// Does nothing; its clauses say what it means that statements of two parts pair. As many pair as are counted, and no
/// more. Alike expressions, and statements that pair, show the same events in secret code and leave the same in the
/// slots.
pub fn pair_laws()
    ensures counts { (f : Setting) (a b : Block) → IsPairCount f a b (pair_count f a b) }
    ensures alike { (o : Parts) (f : Setting) (e g : Tree)
        → HasHomes o f
        → TypedTree (context_of f.decls) e
        → TypedTree (context_of f.decls) g
        → Alike f e g
        → (pattern_of_expr f e ≡ pattern_of_expr f g) × (slots_of_expr f e ≡ slots_of_expr f g) }
    ensures pairs { (o : Parts) (f : Setting) (s t : Statement)
        → HasHomes o f
        → TypedStatement (context_of f.decls) Secret s
        → TypedStatement (context_of f.decls) Secret t
        → Pair f s t
        → (pattern_of_set f s ≡ pattern_of_set f t) × (slots_of_set f s ≡ slots_of_set f t) }
{}

/// Does nothing; its clause says what it means that code without effect mirrors code with an effect, as the codes of two
/// calls for one assignment do. If the one writes once, only this instruction may differ, and only in the register that it
/// stores or writes, or in that the word is read in place of its store.
pub fn twin_laws()
    ensures differ { (once : Bool) (one other : List Instr)
        → written_words once one ≡ 1
        → Mirrors once one other
        → DifferInLastWritten once one other }
{}
