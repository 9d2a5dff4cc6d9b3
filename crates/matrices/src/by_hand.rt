// The definitions of this crate at values that a reader can check by hand.
ghost use Rattle.matrices.specs.ByHand.{ByHand};

// A theorem: the definitions have these values.
pub fn matrices_stand()
    ensures { ByHand }
{}
