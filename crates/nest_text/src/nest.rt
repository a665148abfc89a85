//! Nests: the contents of nested texts.
use fixed_words::List;
use unit_tree::{Instance, Name, PortName, System, Wire};

/// A line of a group that connects a port of the group with a port inside.
/// It is `in u -> a.v` or `out y = a.w`.
#[derive(Debug, Drop)]
pub struct Bind {
    /// The port of the group.
    pub port: Name,
    /// The port of an instance inside.
    pub inner: PortName,
}

/// A group: components and groups with connections, and the ports that others can connect to.
#[derive(Debug, Drop)]
pub struct Group {
    pub name: Name,
    /// Several may have the same port, which is then connected to several inner inputs.
    pub ins: List<Bind>,
    pub outs: List<Bind>,
    /// Their units are units of the system, or groups. They have no settings.
    pub instances: List<Instance>,
    pub wires: List<Wire>,
}

/// The content of a nested text: a system whose instances may have groups as their units, and the
/// groups.
#[derive(Debug, Drop)]
pub struct Nest {
    pub main: System,
    pub groups: List<Group>,
    /// For each group the number, from 1, of the line at which it begins.
    pub lines: List<u32>,
    /// The number of the line `main`.
    pub main_line: u32,
}
