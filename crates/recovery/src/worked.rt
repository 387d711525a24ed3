// Examples, computed from the definitions.
ghost use Rattle.recovery.specs.Worked.{RequestsMet};

/// A transaction with a row of each sort, a create and a store at a free block that may be asked of an
/// example volume, so each law is about something.
pub fn requests_can_be_made()
    ensures { RequestsMet }
{}
