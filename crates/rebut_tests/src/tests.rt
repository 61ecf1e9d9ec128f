//! Evidence against stores: each answer, each refusal in its order, and calls that fail.

mod answers;
mod evidence;
mod failing;
mod running;
mod stores;
