//! Laws of the definitions that the calls of `Solver` cite. They hold of any solver that keeps these contracts.
ghost use Rattle.omega_solve.specs.Determinacy.{AnswersPartTheGame};
ghost use Rattle.omega_solve.specs.Headline.{Headline};
ghost use Rattle.omega_solve.specs.LeastTables.{RunsLeadToLeastTables};
ghost use Rattle.omega_solve.specs.Turns.{RaisesAreBounded};

use omega_game_region_laws::{regions_are_apart, regions_cover};
use omega_lift_laws::{
    choices_are_a_strategy, choices_win, regions_stay_below_top, runs_are_bounded,
    runs_keep_tables, won_places_are_in_regions, zero_tables_are_tables,
};

/// States the headline. However a budget is dealt out to the runs of a solver, it makes at most as many lifts as the
/// bound, and budgets that together reach the bound suffice. Once it is done, its answer is exactly the player's
/// region, with one strategy that wins from all of it (Jurdziński 2000).
pub fn headline()
    ensures { Headline }
{
    zero_tables_are_tables();
    runs_keep_tables();
    runs_are_bounded();
    choices_are_a_strategy();
    choices_win();
    regions_stay_below_top();
}

/// States that, if a solver for each player has finished, each node is won in exactly one of the two answers.
pub fn answers_part_the_game()
    ensures { AnswersPartTheGame }
{
    zero_tables_are_tables();
    runs_keep_tables();
    regions_stay_below_top();
    won_places_are_in_regions();
    regions_cover();
    regions_are_apart();
}

/// States that a lifting run leads from the all-zero table to the least table in which no lift is due. So each way to
/// make lifts that ends there has the answer of a lifting run (Jurdziński 2000).
pub fn runs_lead_to_least_tables()
    ensures { RunsLeadToLeastTables }
{}

/// States that each lift, and each place given up at a measure below top, raises the sum of the measures' ranks. So
/// from the all-zero table there are at most as many of both as the bound.
pub fn raises_are_bounded()
    ensures { RaisesAreBounded }
{}
