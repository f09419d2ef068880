//! The tests, by what they call.
mod counting;
mod fault;
mod options;
mod params;
mod passes;
mod runs;
mod settings;
mod stages;
mod texts;
mod workers;
