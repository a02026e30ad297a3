use lt_isa::Object;

/// What is walked: the code of an object up to the place `end`, inside `depth` regions.
#[derive(Clone, Copy)]
pub struct Arm<'a> {
    pub object: &'a Object,
    pub depth: u32,
    pub end: u32,
}
