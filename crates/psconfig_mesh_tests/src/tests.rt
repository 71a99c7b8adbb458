//! The tables of docs/specification/meshes.md, worked out by hand.
mod faults;
mod meshes;
