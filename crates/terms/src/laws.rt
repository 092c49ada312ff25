// Laws about the definitions that the contracts cite. Each function does nothing, and its contract is the law.
ghost use Rattle.std.specs.Prelude.{◌≡◌, Ok};
ghost use Rattle.terms.specs.declared.side.Side.{Side};
ghost use Rattle.terms.specs.declared.outcome.Outcome.{Outcome};
ghost use Rattle.terms.specs.Codes.{side_byte, side_read, outcome_byte, outcome_read};
ghost use Rattle.terms.specs.Figures.{FiguresStand};
ghost use Rattle.terms.specs.Bounds.{MomentsKeepTheBound, ClosingKeepsTheBound, SettlementsAreLawful};

// The worked figures come out as they are told.
pub fn figures_stand()
    ensures { FiguresStand }
{}

// A lot's charge stays within what the time can have put on it, so that its settlement is always a lawful transfer.
pub fn charges_stay_bounded()
    ensures moments { MomentsKeepTheBound }
    ensures closing { ClosingKeepsTheBound }
    ensures settlements { SettlementsAreLawful }
{}

// A side or an outcome is read back from its byte.
pub fn codes_come_back()
    ensures sides { (s : Side) → side_read (side_byte s) ≡ Ok s }
    ensures outcomes { (o : Outcome) → outcome_read (outcome_byte o) ≡ Ok o }
{}
