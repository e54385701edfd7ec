//! The rows, by what fails, changes or is concurrent.

mod faults;
mod plain;
mod readings;
mod reads;
mod rooms;
mod threads;
