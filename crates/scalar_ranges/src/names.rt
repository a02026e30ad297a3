ghost use Rattle.std.specs.Prelude.{◌≡◌};
ghost use Rattle.src_tree.specs.Prelude.{context_of, label_at, variable_number};

use gr_word::Label;
use src_tree::Decl;

/// The number of a name's variable, or the number of declarations if the name isn't declared.
pub(crate) fn number_of(decls: &[Decl], name: &[u8]) -> usize
    ensures { result ≡ variable_number decls.now name.now }
{
    for (i, decl) in decls.iter().enumerate() {
        if name == decl.name.bytes() {
            return i;
        }
    }
    decls.len()
}

/// The label of a name, public if it isn't declared.
pub(crate) fn label_at(decls: &[Decl], name: &[u8]) -> Label
    ensures { result ≡ label_at (context_of decls.now) name.now }
{
    for decl in decls {
        if name == decl.name.bytes() {
            return decl.label;
        }
    }
    Label::Public
}
