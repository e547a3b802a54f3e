//! The numbers of layers that a loop asks for.

/// The lengths and numbers of layers.
#[derive(Clone, Copy)]
pub struct Sizes {
    /// The frames of the current list, 0 without a layer.
    pub length: u32,
    /// The cycle of the current layer, 0 without a layer.
    pub cycle: u32,
    /// The frames of the open layer's base, 0 where no layer is open.
    pub base: u32,
    /// How many layers there are.
    pub layers: u32,
    /// How many redo layers there are.
    pub redo: u32,
    /// The seams of all layers, without those of redo layers.
    pub seams: u32,
    /// Whether a streak goes on.
    pub streak: bool,
}
