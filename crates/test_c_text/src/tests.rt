mod printed;
mod run;
