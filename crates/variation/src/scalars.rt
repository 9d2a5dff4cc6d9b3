// The scalar of a region at a location: the product, over the region's axes, of how far each applies there.
ghost use Rattle.std.specs.Prelude.{◌≡◌, ◌-ℤ◌, IfSome};
ghost use Rattle.std.specs.Float.Ieee as Ieee;
ghost use Rattle.std.specs.Float.{binary32};
ghost use Rattle.variation.specs.Scalars as scalars;
ghost use Rattle.variation.specs.Within.{FromZeroToOne};

use font::RegionAxis;
use numbers::F2Dot14;

// Whether an axis's ends are crossed, or it spans zero with its peak elsewhere.
fn is_at_fault(axis: RegionAxis) -> bool
    ensures { result ≡ scalars.at_fault axis.start.0 axis.peak.0 axis.end.0 }
{
    let RegionAxis {
        start,
        peak,
        end,
        ..
    } = axis;
    let zero = F2Dot14::ZERO;
    start > peak || peak > end || (start < zero && end > zero && peak != zero)
}

// A difference of two coordinates, as a whole number.
fn apart(a: F2Dot14, b: F2Dot14) -> f32
    ensures { result ≡ Ieee.of_int binary32 (a.0 -ℤ b.0) }
{
    (i32::from(a.to_bits()) - i32::from(b.to_bits())) as f32
}

// Whether an axis applies whole.
fn is_whole(axis: RegionAxis, c: F2Dot14) -> bool
    ensures { result ≡ scalars.whole c.0 axis.peak.0 }
{
    axis.peak == F2Dot14::ZERO || c == axis.peak
}

fn is_outside(axis: RegionAxis, c: F2Dot14) -> bool
    ensures { result ≡ scalars.outside c.0 axis.start.0 axis.end.0 }
{
    !(axis.start..=axis.end).contains(&c)
}

// How far an axis that is not at fault applies at coordinate c.
fn applies(axis: RegionAxis, c: F2Dot14) -> f32
    ensures { result ≡ scalars.applies c.0 axis.start.0 axis.peak.0 axis.end.0 }
{
    if is_whole(axis, c) {
        1.0
    } else if is_outside(axis, c) {
        0.0
    } else if c < axis.peak {
        apart(c, axis.start) / apart(axis.peak, axis.start)
    } else {
        apart(axis.end, c) / apart(axis.end, axis.peak)
    }
}

// The factor of one axis at a coordinate, or none where the axis is at fault.
pub fn factor(axis: RegionAxis, coordinate: F2Dot14) -> Option<f32>
    ensures value { result ≡ scalars.factor axis coordinate }
    ensures within { IfSome result FromZeroToOne }
{
    if is_at_fault(axis) {
        return None;
    }
    Some(applies(axis, coordinate))
}

// A coordinate of a location; past its end it is 0.
fn coordinate(location: &[F2Dot14], axis: u16) -> F2Dot14
    ensures { result ≡ scalars.coordinate location.now axis }
{
    location
        .get(usize::from(axis))
        .copied()
        .unwrap_or(F2Dot14::ZERO)
}

// The product of the factors of a region's axes, from 1 and in their order, or none where an axis is at fault.
pub fn region_scalar(axes: &[RegionAxis], location: &[F2Dot14]) -> Option<f32>
    ensures value { result ≡ scalars.scalar axes.now location.now }
    ensures within { IfSome result FromZeroToOne }
{
    let mut product = 1.0;
    for axis in axes {
        product *= factor(*axis, coordinate(location, axis.axis))?;
    }
    Some(product)
}
