//! Graphs in all their forms, changed by transactions that are read from texts.

mod copies;
mod drawn;
mod filled;
mod forms;
mod listing;
mod plain;
mod worked;
