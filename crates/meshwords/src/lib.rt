// The words that ask about streams over the mesh.
#![tactic(auto)]

mod asked;
mod overloads;

pub use asked::{mesh, mesh_over};
