//! Calls on a heap, and on a plain map of chunks next to it.

mod adopted;
mod beside;
mod by_hand;
mod caller;
mod calls;
mod classes;
mod examples;
mod fixed;
mod hostile;
mod images;
mod linked;
mod lists;
mod loans;
mod moving;
