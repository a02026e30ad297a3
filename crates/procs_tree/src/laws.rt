ghost use Rattle.std.specs.Prelude.{◌≡◌, ◌≤◌, ◌^◌, Some, length};
ghost use Rattle.flow_types.specs.Prelude.{declared_wants};
ghost use Rattle.gr_word.specs.Prelude.{FitsWants};
ghost use Rattle.src_tree.specs.Prelude.{Store};
ghost use Rattle.procs_tree.specs.declared.errors.InlineError.{InlineError};
ghost use Rattle.procs_tree.specs.Trees.{File};
ghost use Rattle.procs_tree.specs.CallCauses.{IsFirstCallFault};
ghost use Rattle.procs_tree.specs.InlineFaults.{inline_fault};
ghost use Rattle.procs_tree.specs.Inlined.{inlined_body, inlined_file};
ghost use Rattle.procs_tree.specs.Sizes.{HasSize, file_size};
ghost use Rattle.procs_tree.specs.Promise.{ArePlain, HasNewWords, KeepsMeaning};

/// A law: the program of a file does with the file's own variables what the file means.
pub fn inlined_meaning()
    ensures { (f : File) → ArePlain f.decls → length (inlined_body f).labels ≤ 2 ^ 64 → KeepsMeaning f (inlined_file f) }
{}

/// A law: the program of a file has as many statements as the sizes say, and no more new variables.
pub fn inlined_size()
    ensures { (f : File) → HasSize (file_size f) (inlined_body f) }
{}

/// A law: inputs that fit the variables of a file's program give it room for what the file means.
pub fn room_for_inputs()
    ensures { (f : File) (store : Store) → FitsWants (declared_wants (inlined_file f).decls) store → HasNewWords f store }
{}

/// Laws of a file's first fault: it is the one that the relation defines, and no other; there is one at most.
pub fn first_call_fault()
    ensures found { (f : File) (e : InlineError) → IsFirstCallFault f e → inline_fault f ≡ Some e }
    ensures only { (f : File) (e : InlineError) → inline_fault f ≡ Some e → IsFirstCallFault f e }
    ensures once { (f : File) (a b : InlineError) → IsFirstCallFault f a → IsFirstCallFault f b → a ≡ b }
{}
