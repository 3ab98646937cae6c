mod events;
mod four;
mod full;
mod levels;
mod pair;
mod steps;
