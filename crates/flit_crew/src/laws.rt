ghost use Rattle.flit_crew.specs.Laws.{AimsStay, NumbersRise};

/// Each name's numbers go on rising, settled and then waiting in any order of words: where an update comes to wait whose
/// name has none that waits and whose number is above those settled; and settling the one that waits changes no numbers.
pub fn rising_numbers()
    ensures { NumbersRise }
{}

/// No event changes what a machine was started for: the word that it loads or confirms, and what it exchanges.
pub fn aims_stay()
    ensures { AimsStay }
{}
