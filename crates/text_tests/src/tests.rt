//! What no clause says: what becomes of texts while there is memory. They are written by hand.

mod axioms;
mod checking;
mod evaluating;
mod numbered;
mod reading;
mod rows;
mod terms;
mod theorems;
mod walking;
mod ways;
