//! Laws of what histories stand for.
ghost use Rattle.std.specs.Prelude.{◌≡◌, List, map};
ghost use Rattle.row_model.specs.Table.{Table};
ghost use Rattle.hol_history.specs.History.{PastStep, tables_of, versions};

/// The versions that a history reaches are those of the states that it stands for, in their order.
pub fn kept_versions()
    ensures { (now : Table) (steps : List PastStep) → map (λ pair. pair.0) (tables_of now steps) ≡ versions steps }
{}
