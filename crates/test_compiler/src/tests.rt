mod compile;
mod interfaces;
mod scripts;
