mod calls;
mod compiling;
mod faults;
mod made;
mod profiles;
mod sure;
