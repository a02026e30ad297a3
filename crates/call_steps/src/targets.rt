use lt_isa::Profile;

/// What a program is compiled for.
#[derive(Clone, Copy, Debug, PartialEq, Eq)]
pub struct Target {
    /// The block size, the cycles and the window of the machine.
    pub profile: Profile,
    /// Whether arrays that fit stay in the scratchpad for the whole run.
    pub fast: bool,
}
