//! Calls on a store, and on a plain list of databases next to it.

mod calls;
mod examples;
mod files;
mod full;
mod images;
mod known;
mod lender;
mod lists;
mod loan_lists;
mod loans;
mod many;
mod steps;
mod taken;
mod whole;
