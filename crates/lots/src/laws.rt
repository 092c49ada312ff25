// A law of the definitions. The function does nothing, and its contract is the law.
ghost use Rattle.lots.specs.Positions.{PositionsAreUnits, LawfulLotsAreSmall};

// A position is what `units_on` gives of any lots, and no lawful lot has more than 50,000 units, at whatever time.
pub fn positions_are_units()
    ensures units { PositionsAreUnits }
    ensures small { LawfulLotsAreSmall }
{}
