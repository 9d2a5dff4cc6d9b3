// What a font tells of itself.

#[derive(Clone, Copy)]
pub struct Head {
    // how many axes a location has, at most 64
    pub axis_count: u16,
    pub units_per_em: u16,
    // whether there are regions and delta sets at all
    pub has_store: bool,
}
