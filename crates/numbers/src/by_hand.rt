// The definitions of this crate at values that a reader can check by hand.
ghost use Rattle.numbers.specs.ByHand.{ByHand};

// A theorem: the definitions have these values.
pub fn numbers_stand()
    ensures { ByHand }
{}
