mod depths;
mod readings;
