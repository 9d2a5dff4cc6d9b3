// The definitions of this crate at values that a reader can check by hand.
ghost use Rattle.variation.specs.ByHand.{ByHand};

// A theorem: the definitions have these values.
pub fn variation_stands()
    ensures { ByHand }
{}
