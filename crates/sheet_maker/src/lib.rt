//! Makes the mesh of the command `gen`: a sheet of quads whose heights and creases come from a seed. The result is a `RawMesh`, as if it
//! had been read from a file. The draws and the sheet are this profile's: `Generator.antt` of `subdiv_model` defines them.
#![tactic(auto)]

mod creases;
mod draws;
pub mod laws;
mod number;
mod points;
mod quads;
mod sheet;

pub use sheet::make_sheet;
