//! Tables that the rules use, made once for a system.
ghost use Rattle.std.specs.Prelude.{◌≡◌, ◌+◌, ◌≤◌, ℕ, nat_lt, length, map, IfOk};
ghost use Rattle.unit_check.specs.Places.{first_port};
ghost use Rattle.unit_check.specs.Counts.{plain_wire_count, is_from};
ghost use Rattle.unit_tree.specs.Plain.{plain_wires, is_event_output};
ghost use Rattle.unit_check.specs.Joins.{is_event_found};
ghost use Rattle.model_rules.specs.Limits.{connection_limit};

use crate::port_tables::{PortPlaces, find_port, places_of_connections, places_of_samples};
use fixed_words::NoMemory;
use model_rules::MOST_CONNECTIONS;
use std::alloc::Global;
use std::marker::Model;
use unit_names::{Declared, SystemNames};
use unit_tree::{PortName, System, Wire};

fn is_event(found: Option<Declared>) -> bool
    ensures { result ≡ is_event_found found }
{
    match found {
        Some(port) => port.is_event,
        None => false,
    }
}

/// Whether a port is an event output.
#[tactic(auto, using(crate::proofs::PlainWires::event_is))]
fn is_event_output(names: &SystemNames<'_>, port: &PortName) -> bool
    ensures { result ≡ is_event_output names.now port.now }
{
    is_event(names.output_at(port))
}

/// How many connections of the plain form a connection becomes.
#[tactic(auto, using(crate::proofs::PlainWires::two_or_one))]
fn width(names: &SystemNames<'_>, wire: &Wire) -> u32
    ensures count { result ≡ length (plain_wires names.now wire.now) }
    ensures most { result ≤ 2 }
{
    if is_event_output(names, &wire.from) {
        2
    } else {
        1
    }
}

/// The first connection that is one too many in the plain form.
#[tactic(auto, using(crate::proofs::PlainWires::first_exceeds, crate::proofs::PlainWires::none_exceeds, crate::proofs::PlainWires::next_count))]
fn first_wire_too_many(names: &SystemNames<'_>) -> Option<usize>
    ensures { (place : ℕ) → nat_lt connection_limit (plain_wire_count names.now (place + 1)) ≡ is_from place result }
{
    let mut count = 0;
    for (place, wire) in names.system().wires.as_slice().iter().enumerate() {
        count += width(names, wire);
        if count > MOST_CONNECTIONS as u32 {
            return Some(place);
        }
    }
    None
}

/// A system with its tables. Contracts see it as the system.
#[derive(Drop)]
pub(crate) struct SystemTables<'a> {
    names: SystemNames<'a>,
    connected: PortPlaces<'a>,
    sampled: PortPlaces<'a>,
    wire_too_many: Option<usize>,
}

impl<'a> Model for SystemTables<'a> {
    ghost use Rattle.std.specs.Coded.{codes};
    ghost use Rattle.std.specs.Prelude.{◌≡◌, ◌+◌, ℕ, nat_lt, map};
    ghost use Rattle.unit_check.specs.Counts.{plain_wire_count, is_from};
    ghost use Rattle.model_rules.specs.Limits.{connection_limit};
    ghost use Rattle.unit_check.specs.PortTables.{FindsPorts};
    ghost use Rattle.unit_tree.specs.contracts.expr.Expr as expr;
    ghost use Rattle.unit_tree.specs.contracts.line.Line as line;
    ghost use Rattle.unit_tree.specs.declared.system.System.{System};

    ghost Value = { System };

    ghost coded = { Prim.hlevel (codes, expr.the_row.coded, line.the_row.coded) };

    ghost view = { λ tables. tables.names };

    ghost invariant = { λ tables.
        FindsPorts (map (λ wire. wire.to) tables.names.wires) tables.connected
        × FindsPorts tables.names.samples tables.sampled
        × ((place : ℕ) → nat_lt connection_limit (plain_wire_count tables.names (place + 1)) ≡ is_from place tables.wire_too_many) };
}

impl<'a> SystemTables<'a> {
    /// Makes the tables of a system.
    pub(crate) fn new(alloc: Global, system: &'a System) -> Result<SystemTables<'a>, NoMemory>
        ensures { IfOk result (λ tables. tables ≡ system.now) }
    {
        // The names come last, since the proof grows with what is dropped on an early return.
        let connected = places_of_connections(alloc, system.wires.as_slice())?;
        let sampled = places_of_samples(alloc, system.samples.as_slice())?;
        let names = SystemNames::new(alloc, system)?;
        let wire_too_many = first_wire_too_many(&names);
        Ok(SystemTables {
            names,
            connected,
            sampled,
            wire_too_many,
        })
    }

    /// The names of the system.
    pub(crate) fn names(&self) -> &SystemNames<'a>
        ensures { result.now ≡ self.now }
    {
        &self.names
    }

    /// Whether there are too many connections up to one of them, in the plain form.
    pub(crate) fn has_too_many_wires(&self, place: usize) -> bool
        ensures { result ≡ nat_lt connection_limit (plain_wire_count self.now (place + 1)) }
    {
        match self.wire_too_many {
            Some(first) => first <= place,
            None => false,
        }
    }

    /// The first connection of an input, by its number from 0.
    pub(crate) fn first_connection(&self, input: &PortName) -> Option<usize>
        ensures { result ≡ first_port (map (λ wire. wire.to) self.now.wires) input.now }
    {
        find_port(&self.connected, input)
    }

    /// The first sample of a port, by its number from 0.
    pub(crate) fn first_sample(&self, port: &PortName) -> Option<usize>
        ensures { result ≡ first_port self.now.samples port.now }
    {
        find_port(&self.sampled, port)
    }
}
