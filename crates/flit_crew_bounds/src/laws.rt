ghost use Rattle.flit_crew_bounds.specs.Laws.{MachinesFall, WinsTell, WrittenTell};

/// Each event of a machine leaves it fewer to go, and one that has ended has the pairs of its hand's queue left.
pub fn machines_fall()
    ensures { MachinesFall }
{}

/// An exchange that an event loses was not to be won.
pub fn wins_tell()
    ensures { WinsTell }
{}

/// An exchange that has won finds its word as it wrote it, and once its tag is withdrawn an exchange from the bare word will
/// win.
pub fn written_tell()
    ensures { WrittenTell }
{}
