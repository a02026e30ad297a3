ghost use Rattle.std.specs.Prelude.{◌≡◌};
ghost use Rattle.ghost_page.specs.Page.{StandsIn};

/// The outcome of a call.
#[repr(C)]
#[derive(Drop)]
pub struct Answer {
    /// The exit status of the program.
    pub status: u32,
    /// 1 where the file `output` is there afterwards, else 0.
    pub written: u32,
    /// How many bytes the text has.
    pub text: usize,
    /// How many bytes the file `output` has.
    pub output: usize,
}

impl Answer {
    /// The outcome of a call without a text and a file.
    pub(crate) fn without_text(status: u32) -> Answer
        ensures status { result.status ≡ status }
        ensures no_file { result.written ≡ 0 }
        ensures no_text { result.text ≡ 0 }
        ensures no_bytes { result.output ≡ 0 }
    {
        Answer {
            status,
            written: 0,
            text: 0,
            output: 0,
        }
    }
}

/// Writes the bytes to the beginning of the room, if they fit; otherwise the room stays as it was.
pub(crate) fn put(bytes: &[u8], room: &mut [u8])
    ensures { StandsIn bytes.now room.new }
{
    if bytes.len() <= room.len() {
        room[..bytes.len()].copy_from_slice(bytes);
    }
}
