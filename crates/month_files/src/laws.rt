//! What the definitions say of each other.
ghost use Rattle.std.specs.Prelude.{◌≡◌};
ghost use Rattle.month_files.specs.Reading.{Inputs};
ghost use Rattle.month_files.specs.Months.{Names, HasFault};
ghost use Rattle.month_files.specs.declared.fault.InputFault.{InputFault as Fault};
ghost use Rattle.roster_model.specs.declared.problem.Problem.{Problem as Month};

/// Texts name at most one problem, have at most one first fault, and never both.
pub fn texts_name_one_month()
    ensures one_problem { (texts : Inputs) (a b : Month) → Names texts a → Names texts b → a ≡ b }
    ensures one_fault { (texts : Inputs) (a b : Fault) → HasFault texts a → HasFault texts b
        → a ≡ b }
    ensures never_both { (texts : Inputs) (a : Month) (b : Fault) → Names texts a
        → HasFault texts b → ⊥ }
{}
