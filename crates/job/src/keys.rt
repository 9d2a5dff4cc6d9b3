// The keys of a component, each as far as it is given: a key that was given before is told by its value, with no set beside it.
ghost use Rattle.std.specs.Prelude.{◌≡◌, Some, IsSome, OnOk, IsErrOf};
ghost use Rattle.job.specs.declared.problems.Problem.TheVariants.{SecondKey};

use crate::problems::Problem;
use directory::Span;
use font::StoredTransform;

#[derive(Clone, Copy, Default)]
pub(crate) struct TransformKeys {
    tx: Option<i16>,
    ty: Option<i16>,
    rot: Option<i16>,
    sx: Option<i16>,
    sy: Option<i16>,
    kx: Option<i16>,
    ky: Option<i16>,
    cx: Option<i16>,
    cy: Option<i16>,
}

#[derive(Clone, Copy, Default)]
pub(crate) struct Keys {
    pub(crate) transform: TransformKeys,
    pub(crate) condition: Option<u32>,
    pub(crate) list: Option<u32>,
    pub(crate) axesvar: Option<u32>,
    pub(crate) transformvar: Option<u32>,
    pub(crate) values: Option<Span>,
}

// Keeps the value of a key, which may be given only once.
pub(crate) fn give<T: Copy>(slot: &mut Option<T>, value: T) -> Result<(), Problem>
    ensures kept { OnOk result (slot.new ≡ Some value) }
    ensures second { IsSome slot.old → IsErrOf result SecondKey }
{
    if slot.is_some() {
        return Err(Problem::SecondKey);
    }
    *slot = Some(value);
    Ok(())
}

impl TransformKeys {
    // Keeps a number of the transform by its key.
    pub(crate) fn read(&mut self, key: &str, value: i16) -> Result<(), Problem> {
        match key {
            "tx" => give(&mut self.tx, value),
            "ty" => give(&mut self.ty, value),
            "rot" => give(&mut self.rot, value),
            "sx" => give(&mut self.sx, value),
            "sy" => give(&mut self.sy, value),
            "kx" => give(&mut self.kx, value),
            "ky" => give(&mut self.ky, value),
            "cx" => give(&mut self.cx, value),
            "cy" => give(&mut self.cy, value),
            _ => Err(Problem::UnknownWord),
        }
    }

    // The transform, with 0 for what is not given.
    pub(crate) fn stored(self) -> StoredTransform {
        StoredTransform {
            translate_x: self.tx.unwrap_or(0),
            translate_y: self.ty.unwrap_or(0),
            rotation: self.rot.unwrap_or(0),
            scale_x: self.sx.unwrap_or(0),
            scale_y: self.sy.unwrap_or(0),
            skew_x: self.kx.unwrap_or(0),
            skew_y: self.ky.unwrap_or(0),
            center_x: self.cx.unwrap_or(0),
            center_y: self.cy.unwrap_or(0),
        }
    }
}
