//! Laws of the definitions, each the contract of a function that does nothing.
ghost use Rattle.w_stands.specs.Code.{BodiesAreRead};

/// From its first place on, the list of a body is read as the body, up to its end.
pub fn bodies_are_read()
    ensures { BodiesAreRead }
{}
