//! Builders of games, tables of measures, and schedules.
mod building;
mod measures;
mod schedules;
