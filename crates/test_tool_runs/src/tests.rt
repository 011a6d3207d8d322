mod driven;
mod runs;
