mod params;
mod reader;
mod systems;
mod wiring;
