// The directions of views.
ghost use Rattle.std.specs.Prelude.{◌≡◌, map, option_map};
ghost use Rattle.lattice.specs.Points.{of_dir};
ghost use Rattle.toml.specs.View.{view};
ghost use Rattle.job_file.specs.Names.{principals, direction_of};
ghost use Rattle.job_file.specs.Steps.{look_up};
ghost use Rattle.job_file.specs.inner.Steps.{GivesExactly};
ghost use Rattle.job_file.specs.inner.Triples.{triple_seen};
ghost use Rattle.job_file.specs.ViewKeys.{numbers_in, numbers_of, direction_at};

use crate::fault::JobFault;
use crate::view::Principal;
use lattice::{Dir, DirFault};
use toml::Value;

/// Three whole numbers.
#[derive(Clone, Copy)]
pub struct Numbers {
    pub x: i64,
    pub y: i64,
    pub z: i64,
}

/// The view of this name.
pub fn principal_of(text: &str) -> Option<Principal>
    ensures { result ≡ look_up principals text.now }
{
    match text {
        "front" => Some(Principal::Front),
        "back" => Some(Principal::Back),
        "left" => Some(Principal::Left),
        "right" => Some(Principal::Right),
        "above" => Some(Principal::Above),
        "below" => Some(Principal::Below),
        _ => None,
    }
}

/// The values, if they are three whole numbers.
fn numbers_in(values: &[Value]) -> Option<Numbers>
    ensures { option_map triple_seen result ≡ numbers_in (map view values.now) }
{
    match values {
        [x, y, z] => match (x.as_integer(), y.as_integer(), z.as_integer()) {
            (Some(x), Some(y), Some(z)) => Some(Numbers { x, y, z }),
            _ => None,
        },
        _ => None,
    }
}

/// The three whole numbers of an array.
pub fn numbers_of(value: &Value) -> Option<Numbers>
    ensures { option_map triple_seen result ≡ numbers_of (view value.now) }
{
    match value.as_array() {
        Some(values) => numbers_in(values),
        None => None,
    }
}

/// The direction of the view with this number.
pub fn direction(number: u32, numbers: Numbers) -> Result<Dir, JobFault>
    ensures { GivesExactly of_dir result (direction_at number (triple_seen numbers)) }
{
    match Dir::new(numbers.x, numbers.y, numbers.z) {
        Ok(direction) => Ok(direction),
        Err(DirFault::ZeroDirection) => Err(JobFault::ZeroDirection(number)),
        Err(DirFault::DirectionRange(axis)) => Err(JobFault::DirectionRange(number, axis)),
    }
}

/// The numbers of a name's direction.
fn numbers_named(name: Principal) -> Numbers
    ensures { triple_seen result ≡ direction_of name }
{
    match name {
        Principal::Front => Numbers { x: 0, y: -1, z: 0 },
        Principal::Back => Numbers { x: 0, y: 1, z: 0 },
        Principal::Left => Numbers { x: -1, y: 0, z: 0 },
        Principal::Right => Numbers { x: 1, y: 0, z: 0 },
        Principal::Above => Numbers { x: 0, y: 0, z: 1 },
        Principal::Below => Numbers { x: 0, y: 0, z: -1 },
    }
}

/// The direction of a name.
pub fn direction_of(name: Principal) -> Dir
    ensures { of_dir result ≡ direction_of name }
{
    match direction(0, numbers_named(name)) {
        Ok(direction) => direction,
        Err(_) => unreachable!(),
    }
}
