ghost use Rattle.flit_one_key_laws.specs.OneKey.{OneKeyIsLawful};

/// A map of at most one key keeps every law of a structure, whatever its layout of one row, its
/// placement and its pool.
pub fn one_key_is_lawful()
    ensures { OneKeyIsLawful }
{}
