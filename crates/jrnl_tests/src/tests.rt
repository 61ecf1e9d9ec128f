//! Journals written, cut, broken and read again, by bytes written down from docs/FORMATS.md, "Journal".

mod broken;
mod cut;
mod failing;
mod kinds;
mod limits;
mod saving;
mod shown;
mod texts;
mod untold;
