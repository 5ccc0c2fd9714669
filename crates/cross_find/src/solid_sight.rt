// A solid seen in one direction, by its own coordinates.
ghost use Rattle.std.specs.Prelude.{◌≡◌};
ghost use Rattle.lattice.specs.Points.{of_dir};
ghost use Rattle.solid_mesh.specs.Solids.{solid_part, edge_halves};

use crate::cover::cover_test;
use crate::cross::cross_test;
use crate::meter::{Crossing, End, Meter, Turn};
use crate::sight::Sight;
use crate::turns::corner_test;
use lattice::Dir;
use solid_mesh::{Edge, Solid};

/// A solid seen in one direction. Its tests are those of this crate, each in constant time.
#[derive(Drop)]
pub struct SolidSight<'s> {
    solid: &'s Solid,
    d: &'s Dir,
    meter: Meter,
}

impl<'s> SolidSight<'s> {
    ghost use Rattle.cross_find.specs.SolidSights.{state_of};

    /// The solid in this direction, before any test.
    pub fn new(solid: &'s Solid, d: &'s Dir) -> SolidSight<'s>
        ensures { state_of result ≡ record { part = solid_part solid.now; halves = edge_halves solid.now; direction = of_dir d.now; tests = 0 } }
    {
        SolidSight {
            solid,
            d,
            meter: Meter { tests: 0 },
        }
    }

    /// How many tests were made.
    pub fn tests(&self) -> u64
        ensures { result ≡ (state_of self.now).tests }
    {
        self.meter.tests
    }
}

impl<'s> Sight for SolidSight<'s> {
    ghost use Rattle.cross_find.specs.SolidSights.{state_of};

    ghost sight = { state_of };

    fn edge(&self, i: u32) -> Edge {
        self.solid.edge(i)
    }

    fn star(&self, corner: u32) -> &[u32] {
        self.solid.star(corner)
    }

    fn triangles(&self) -> u32 {
        self.solid.triangles()
    }

    fn cross(&mut self, edge: u32, outline: u32) -> Option<Crossing> {
        cross_test(self.solid, self.d, edge, outline, &mut self.meter)
    }

    fn cover(&mut self, end: End, tri: u32) -> (u8, u8) {
        cover_test(self.solid, self.d, end, tri, &mut self.meter)
    }

    fn turn(&mut self, from: End, to: End, outline: u32) -> Turn {
        corner_test(self.solid, self.d, from, to, outline, &mut self.meter)
    }
}
