// The size to draw at: unscaled, or pixels per em.
ghost use Rattle.std.specs.Prelude.{◌≡◌, Some, None};
ghost use Rattle.numbers.specs.Types.{size};
ghost use Rattle.numbers.specs.Scales.{scale};

#[derive(Clone, Copy, Debug)]
pub struct Size(Option<f32>);

impl Size {
    pub fn new(ppem: f32) -> Self
        ensures { result ≡ size (Some ppem) }
    {
        Size(Some(ppem))
    }

    pub fn unscaled() -> Self
        ensures { result ≡ size None }
    {
        Size(None)
    }

    // The pixels per em, or none where the size is unscaled.
    pub fn ppem(self) -> Option<f32>
        ensures { result ≡ self.0 }
    {
        self.0
    }

    // Pixels for one font unit: 1 for an unscaled size, and where the font has no units per em.
    pub fn linear_scale(self, units_per_em: u16) -> f32
        ensures { result ≡ scale self.0 units_per_em }
    {
        match self.0 {
            Some(ppem) if units_per_em != 0 => ppem / units_per_em as f32,
            _ => 1.0,
        }
    }
}
