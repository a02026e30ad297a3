/// Whether what is written has an effect.
#[derive(Clone, Copy, Debug, PartialEq, Eq)]
pub enum Effect {
    /// The word becomes the value.
    Stores,
    /// The old word is written back.
    Keeps,
}
