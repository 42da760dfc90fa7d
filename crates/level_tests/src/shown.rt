// A level as a text, with a line for each part.

ghost use Rattle.std.specs.Prelude.{◌<◌, length};
ghost use Rattle.subdiv_model.specs.Edges.{edges_of};

use crate::expect::expect_same;
use level_topology::{EdgeFaces, Level};
use ratio128::Memory;
use sharpness_rules::Sharpness;
use std::alloc::Global;
use std::fmt::{self, Display, Formatter, Write};
use std::process::Abort;

// A sharpness as a fraction.
fn fraction_of(s: Sharpness) -> (u64, u64) {
    match s {
        Sharpness::Smooth => (0, 1),
        Sharpness::Semi(value) => (value.num(), value.den()),
        Sharpness::Infinite => (10, 1),
    }
}

// Shows for each face its corners, its edges and whether it is a hole; for each edge its ends, its faces and its sharpness;
// for each point its faces with its corners there, its edges with its ends there, its sharpness and its mark.
#[derive(Clone, Copy)]
struct Shown<'a>(&'a Level);

fn show_faces<W: Write>(level: &Level, f: &mut Formatter<W>) -> fmt::Result {
    for face in 0..level.faces() {
        let row = (
            level.face_vertices(face),
            level.face_edges(face),
            level.is_hole(face),
        );
        writeln!(f, "face {row:?}")?;
    }
    Ok(())
}

fn show_edges<W: Write>(level: &Level, f: &mut Formatter<W>) -> fmt::Result {
    for edge in 0..level.edges() {
        let EdgeFaces { first, second } = level.edge_faces(edge);
        let s = fraction_of(level.edge_sharpness(edge));
        let row = (level.edge_vertices(edge), first, second, s);
        writeln!(f, "edge {row:?}")?;
    }
    Ok(())
}

fn show_points<W: Write>(level: &Level, f: &mut Formatter<W>) -> fmt::Result {
    for v in 0..level.points() {
        let row = (
            level.vertex_faces(v),
            level.vertex_faces_at(v),
            level.vertex_edges(v),
            level.vertex_edges_at(v),
            fraction_of(level.vertex_sharpness(v)),
            level.is_complete(v),
        );
        writeln!(f, "point {row:?}")?;
    }
    Ok(())
}

impl Display for Shown<'_> {
    fn fmt<W: Write>(&self, f: &mut Formatter<W>) -> fmt::Result {
        writeln!(f, "{:?}", self.0.method())?;
        show_faces(self.0, f)?;
        show_edges(self.0, f)?;
        show_points(self.0, f)
    }
}

// The text of the level is this one.
pub fn expect_shown(
    rt: &impl Abort,
    alloc: Global,
    level: &Level,
    want: &str,
) -> Result<(), Memory> {
    let text = format!(in alloc; "{}", Shown(level))?;
    expect_same(rt, &text.as_str(), &want, &"level");
    Ok(())
}
