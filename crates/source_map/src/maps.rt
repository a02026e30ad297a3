ghost use Rattle.std.specs.Prelude.{◌≡◌, ◌≤◌, MatchOption, length, slice_index};

/// A range of tokens: the number of its first token, and the number after that of its last token.
#[derive(Clone, Copy, Debug, PartialEq, Eq)]
pub struct Span {
    pub start: u32,
    pub end: u32,
}

/// The places of statements in the order of their first tokens. The last token of a statement is its semicolon, or the
/// closing brace of its last block.
#[derive(Drop)]
pub struct SourceMap {
    pub starts: Vec<u32>,
    pub ends: Vec<u32>,
}

impl SourceMap {
    /// The place of a statement by its number, which is counted from 0.
    pub fn statement(&self, number: usize) -> Option<Span>
        ensures start { MatchOption result (Unit {0}) (λ span. span.start ≡ slice_index self.now.starts.items number) }
        ensures end { MatchOption result (Unit {0}) (λ span. span.end ≡ slice_index self.now.ends.items number) }
    {
        match (self.starts.get(number), self.ends.get(number)) {
            (Some(start), Some(end)) => Some(Span {
                start: *start,
                end: *end,
            }),
            _ => None,
        }
    }
}
