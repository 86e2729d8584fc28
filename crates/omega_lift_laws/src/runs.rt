ghost use Rattle.omega_lift_laws.specs.Laws.{PlacesAreLiftedBoundedly, RunsAreBounded};
ghost use Rattle.omega_lift_laws.specs.Laws.{RunsKeepTables, ZeroTablesAreTables};

/// States that the all-zero table is a table.
pub fn zero_tables_are_tables()
    ensures { ZeroTablesAreTables }
{}

/// States that a lifting run leads from a table to a table.
pub fn runs_keep_tables()
    ensures { RunsKeepTables }
{}

/// States that a lifting run from the all-zero table has at most as many entries as the bound (Jurdziński 2000).
pub fn runs_are_bounded()
    ensures { RunsAreBounded }
{}

/// States that a lifting run from the all-zero table has each place at most as often as the product.
pub fn places_are_lifted_boundedly()
    ensures { PlacesAreLiftedBoundedly }
{}
