ghost use Rattle.std.specs.Prelude.{◌≡◌};
ghost use Rattle.std.specs.Option.{option_map};
ghost use Rattle.unit_tree.specs.Names.{unit_of_instance};

use crate::{Name, Unit};
use fixed_words::{List, Literal, Ty};

/// A parameter's value in one instance.
#[derive(Debug, Drop)]
pub struct Setting {
    pub name: Name,
    pub value: Literal,
}

/// A component: a unit by its name, with the parameters that are set for this instance.
#[derive(Debug, Drop)]
pub struct Instance {
    pub name: Name,
    pub unit: Name,
    pub settings: List<Setting>,
}

/// A port of an instance.
#[derive(Debug, Drop)]
pub struct PortName {
    pub instance: Name,
    pub port: Name,
}

/// A connection from an output to an input, or from an event output to an event input.
#[derive(Debug, Drop)]
pub struct Wire {
    pub from: PortName,
    pub to: PortName,
}

/// The content of a model text.
#[derive(Debug, Drop)]
pub struct System {
    /// The version of the language: 1, or 2, which has event ports.
    pub version: u8,
    pub units: List<Unit>,
    pub instances: List<Instance>,
    pub wires: List<Wire>,
    /// The time at which the run ends, in seconds.
    pub stop: Option<Literal>,
    /// The longest step, in seconds. It is `stop` where none is given.
    pub longest: Option<Literal>,
    /// How many steps of length zero may follow each other. Where none is given, it is 100 in version 1 and 1,000 in
    /// version 2.
    pub zero: Option<u32>,
    /// The most rows of the trace. Where none is given, it is 100,000 in version 1 and 10,000 in version 2, and at
    /// most 1,000,000 divided by the number of instances.
    pub rows: Option<u32>,
    /// The outputs that the trace shows; all outputs where none is sampled.
    pub samples: List<PortName>,
}

impl System {
    /// The unit of an instance: the first unit of its name. There are few units, so it searches them in turn.
    pub fn unit_of(&self, instance: &Instance) -> Option<&Unit>
        ensures { option_map (λ unit. unit.now) result ≡ unit_of_instance self.now instance.now }
    {
        let units = self.units.as_slice();
        let name = instance.unit.as_slice();
        for unit in units {
            if unit.name.as_slice() == name {
                return Some(unit);
            }
        }
        None
    }
}

/// An output as a column of the trace: its instance and its number there, its place among all outputs
/// by instance and declaration, and its type. All count from 0.
///
/// `output` and `place` count the outputs of what is run, in version 2 those of the plain form. An event output is
/// one column, though it is two outputs there: `output` and `place` are those of its word. The output before it is 1
/// where an event occurs, and else 0.
#[derive(Clone, Copy, Debug, PartialEq, Eq)]
pub struct Column {
    pub instance: u32,
    pub output: u32,
    pub place: u32,
    pub ty: Ty,
    /// Whether it is an event output, whose field is empty where no event occurs.
    pub event: bool,
}
