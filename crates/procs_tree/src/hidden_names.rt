ghost use Rattle.std.specs.Prelude.{◌≡◌, slice_index};
ghost use Rattle.procs_tree.specs.Inlined.{is_hidden};

fn byte_at(name: &[u8], i: usize) -> u8
    ensures { result ≡ slice_index name.now i }
{
    if i < name.len() { name[i] } else { 0 }
}

/// Whether a name begins with `__`, as no name of a file does.
pub fn is_hidden(name: &[u8]) -> bool
    ensures { result ≡ is_hidden name.now }
{
    byte_at(name, 0) == 95 && byte_at(name, 1) == 95
}
