//! Compares paths as texts.

ghost use Rattle.std.specs.Prelude.{◌≡◌};
ghost use Rattle.ghost_front.specs.Paths.{leads};

/// Whether two paths are the same but for steps that lead nowhere: `./a` is `a`, and `b//c` is `b/./c`. No link is
/// followed, and `..` is a step like others, since the folder before it may be a link.
pub(crate) fn are_one_path(one: &str, other: &str) -> bool {
    if is_rooted(one) != is_rooted(other) {
        return false;
    }
    let mut steps = other.split("/").filter(|step| leads(step));
    for step in one.split("/").filter(|step| leads(step)) {
        match steps.next() {
            Some(own) => if own != step {
                return false;
            },
            None => return false,
        }
    }
    steps.next().is_none()
}

fn is_rooted(path: &str) -> bool {
    path.starts_with("/")
}

// Whether a step of a path leads to another file.
fn leads(step: &str) -> bool
    ensures { result ≡ leads step.now }
{
    !(step == "" || step == ".")
}
