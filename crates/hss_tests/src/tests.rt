//! Rolls, endorsements and authenticators under two keys, by bytes written down from docs/FORMATS.md, "Two levels of keys".

mod commands;
mod cut;
mod files;
mod keys;
mod rolls;
mod untold;
mod verified;
