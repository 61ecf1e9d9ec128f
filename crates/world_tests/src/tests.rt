//! Tables by an independent program's reading of the rules, and each call once.

mod parts;
mod schedules;
