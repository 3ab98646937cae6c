mod hostile;
mod program;
mod races;
mod runs;
