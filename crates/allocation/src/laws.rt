// What is chosen, named by a function's contract.
ghost use Rattle.allocation.specs.ChoosingLaws.{ChosenLaw};

/// An address that is chosen lies on the device and will do. Where every map can be used, none is
/// chosen only if none will do: every cylinder is tried.
pub fn chosen_address_will_do()
    ensures { ChosenLaw }
{}
