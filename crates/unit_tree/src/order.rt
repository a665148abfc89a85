use crate::Checked;
use fixed_words::List;
use std::marker::Model;

/// An input of an instance, both by their numbers from 0.
#[derive(Clone, Copy, Debug, PartialEq, Eq)]
pub struct InputAt {
    pub instance: u32,
    pub input: u32,
}

/// An input that nothing is connected to, and the word that it has.
#[derive(Clone, Copy, Debug, PartialEq, Eq)]
pub struct StartWord {
    pub at: InputAt,
    pub word: i64,
}

/// An output by its place: its instance and its number there, the inputs that are connected to it, and the places of
/// the outputs that it depends on directly.
#[derive(Debug, Drop)]
pub struct Route {
    pub instance: u32,
    pub output: u32,
    pub feeds: List<InputAt>,
    pub needs: List<u32>,
}

/// The outputs of a system by their places, and the inputs that nothing is connected to.
#[derive(Debug, Drop)]
pub struct Routes {
    pub outputs: List<Route>,
    pub starts: List<StartWord>,
}

/// An order of a system's outputs by their places, with the routes of all ports as numbers. Places count all outputs
/// from 0, by instance and then by declaration. A caller that goes along it looks up no name.
///
/// It has each place once, after all places that its output depends on.
#[derive(Debug, Drop)]
pub struct Order {
    places: List<u32>,
    routes: Routes,
}

impl Model for Order {
    ghost use Rattle.unit_tree.specs.Routes.{Ordered};

    ghost Value = { Ordered };

    ghost use Rattle.unit_tree.specs.Routed.{ordered, IsRouted};

    ghost view = { ordered };

    ghost invariant = { IsRouted };
}

impl Order {
    ghost use Rattle.std.specs.Prelude.{◌≡◌};
    ghost use Rattle.unit_tree.specs.Compositions.{run_of};
    ghost use Rattle.unit_tree.specs.Routes.{IsOrdered, IsOrderOf};

    /// Returns the order with these places and the routes of the system.
    pub fn new(places: List<u32>, routes: Routes, checked: &Checked) -> Order
        requires { IsOrderOf (run_of checked.now) (record { places = places; routes = routes }) }
        ensures of { IsOrderOf (run_of checked.now) result }
        ensures is { result ≡ record { places = places; routes = routes } }
    {
        let _ = checked;
        Order { places, routes }
    }

    /// The places in their order.
    pub fn places(&self) -> &[u32]
        ensures places { result.now ≡ self.now.places }
        ensures ordered { IsOrdered self.now }
    {
        self.places.as_slice()
    }

    /// The routes of all ports.
    pub fn routes(&self) -> &Routes
        ensures routes { result.now ≡ self.now.routes }
        ensures ordered { IsOrdered self.now }
    {
        &self.routes
    }
}
