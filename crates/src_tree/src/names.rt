ghost use Rattle.std.specs.Prelude.{◌≡◌};
ghost use Rattle.gr_base.specs.Prelude.{found_under};
ghost use Rattle.src_tree.specs.Contexts.{shape_of};
ghost use Rattle.src_tree.specs.Labels.{label_at};

use gr_word::{Label, Shape};
use std::collections::BTreeMap;

/// The label and the shape of each declared name, by the name's bytes.
pub type Names<'a> = BTreeMap<&'a [u8], (Label, Shape)>;

/// The shape of a variable from its length in words: an array has a length, a scalar has none.
pub fn shape_of(length: Option<u64>) -> Shape
    ensures { result ≡ shape_of length }
{
    match length {
        None => Shape::Scalar,
        Some(_) => Shape::Array,
    }
}

/// What a name was declared as, or `None` if it wasn't declared.
pub fn kind_at<'a>(names: &Names<'a>, name: &'a [u8]) -> Option<(Label, Shape)>
    ensures { result ≡ found_under names.now name.now }
{
    names.get(&name).copied()
}

/// The label of a name, or public if it isn't declared.
pub fn label_at<'a>(names: &Names<'a>, name: &'a [u8]) -> Label
    ensures { result ≡ label_at (found_under names.now) name.now }
{
    match kind_at(names, name) {
        None => Label::Public,
        Some(kind) => kind.0,
    }
}
