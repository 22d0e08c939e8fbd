use pgs_base::Elem;

/// An element at a variable of a pattern.
#[derive(Clone, Copy)]
pub struct Stand {
    pub var: u32,
    pub elem: Elem,
}
