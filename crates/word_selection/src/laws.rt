ghost use Rattle.std.specs.Prelude.{◌≡◌, ◌+◌, ◌*◌, ◌/◌, ◌%◌, ◌<◌, ℕ, ℤ, pos, List, [], length, slice_index_or, slice_set};
ghost use Rattle.lt_isa.specs.Prelude.{State, register, slot, slot_words, word_in, Parts, block_words, IsInRange, IsShaped};
ghost use Rattle.stretches.specs.Prelude.{RunsThrough, StandsAt};
ghost use Rattle.word_selection.specs.Selected.{AreBound, ReadsWord, WritesWord};
ghost use Rattle.word_selection.specs.Selection.{selected_read, selected_write};
ghost use Rattle.word_selection.specs.SlotSteps.{IsOutside, with_word};
ghost use Rattle.word_selection.specs.declared.effects.Effect.TheVariants.{Keeps, Stores};

/// Does nothing; its clauses are laws of runs through the code that reads or writes word number `n` of an array, whose
/// blocks are in some slots in order. Reading leaves the word of the slot of its block. Writing stores a value in that
/// slot and in no other one, and without effect it leaves each slot as it is.
pub fn selection_laws()
    ensures reads { (o : Parts) (slots : List ℕ) (to n default : ℕ) (s : State)
        → IsInRange o
        → IsShaped o s
        → to + 3 < 32
        → AreBound s slots
        → register s to ≡ pos n
        → n < length slots * block_words o
        → StandsAt o s.place (selected_read (block_words o) slots to)
        → RunsThrough o s (selected_read (block_words o) slots to) [] (ReadsWord to
        (word_in (slot_words (slot s (slice_index_or slots (n / block_words o) default))) (n % block_words o)) s) }
    ensures writes { (o : Parts) (slots : List ℕ) (to value n default : ℕ) (word : ℤ) (s : State)
        → IsInRange o
        → IsShaped o s
        → to + 4 < 32
        → IsOutside to 4 value
        → AreBound s slots
        → register s value ≡ word
        → register s to ≡ pos n
        → n < length slots * block_words o
        → StandsAt o s.place (selected_write Stores (block_words o) value slots to)
        → RunsThrough o s (selected_write Stores (block_words o) value slots to) [] (WritesWord to
        (slice_set s.slots (slice_index_or slots (n / block_words o) default)
        (with_word (block_words o) (slot s (slice_index_or slots (n / block_words o) default)) (pos n) word)) s) }
    ensures keeps { (o : Parts) (slots : List ℕ) (to value : ℕ) (s : State)
        → IsInRange o
        → IsShaped o s
        → to + 4 < 32
        → IsOutside to 4 value
        → AreBound s slots
        → StandsAt o s.place (selected_write Keeps (block_words o) value slots to)
        → RunsThrough o s (selected_write Keeps (block_words o) value slots to) [] (WritesWord to s.slots s) }
{}
