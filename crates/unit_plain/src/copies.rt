//! Copies of the parts of a system.
use fixed_words::{List, NoMemory};
use std::alloc::Global;
use unit_tree::{EventIn, Input, Instance, Local, Name, Param, PortName, Setting, State, Wire};

/// A value that can be copied, with all that it holds.
pub(crate) trait Copied: Drop {
    ghost use Rattle.std.specs.Prelude.{◌≡◌, IfOk};

    /// A copy.
    fn copied(&self, alloc: Global) -> Result<Self, NoMemory>
        ensures { IfOk result (λ copy. copy ≡ self.now) };
}

ghost use Rattle.std.specs.Prelude.{◌≡◌, IfOk};

/// A list of copies.
pub(crate) fn copied_list<T: Copied>(alloc: Global, items: &[T]) -> Result<List<T>, NoMemory>
    ensures { IfOk result (λ copy. copy ≡ items.now) }
{
    let mut copies = List::new(alloc);
    for item in items {
        copies.push(item.copied(alloc)?)?;
    }
    Ok(copies)
}

impl Copied for Name {
    fn copied(&self, alloc: Global) -> Result<Name, NoMemory> {
        List::from_slice(alloc, self.as_slice())
    }
}

impl Copied for Param {
    fn copied(&self, alloc: Global) -> Result<Param, NoMemory> {
        Ok(Param {
            name: self.name.copied(alloc)?,
            ty: self.ty,
            start: self.start,
        })
    }
}

impl Copied for State {
    fn copied(&self, alloc: Global) -> Result<State, NoMemory> {
        Ok(State {
            name: self.name.copied(alloc)?,
            ty: self.ty,
            start: self.start,
        })
    }
}

impl Copied for Local {
    fn copied(&self, alloc: Global) -> Result<Local, NoMemory> {
        Ok(Local {
            name: self.name.copied(alloc)?,
            ty: self.ty,
        })
    }
}

impl Copied for Input {
    fn copied(&self, alloc: Global) -> Result<Input, NoMemory> {
        Ok(Input {
            name: self.name.copied(alloc)?,
            ty: self.ty,
            start: self.start,
        })
    }
}

impl Copied for EventIn {
    fn copied(&self, alloc: Global) -> Result<EventIn, NoMemory> {
        Ok(EventIn {
            name: self.name.copied(alloc)?,
            ty: self.ty,
        })
    }
}

impl Copied for Setting {
    fn copied(&self, alloc: Global) -> Result<Setting, NoMemory> {
        Ok(Setting {
            name: self.name.copied(alloc)?,
            value: self.value,
        })
    }
}

impl Copied for Instance {
    fn copied(&self, alloc: Global) -> Result<Instance, NoMemory> {
        Ok(Instance {
            name: self.name.copied(alloc)?,
            unit: self.unit.copied(alloc)?,
            settings: copied_list(alloc, self.settings.as_slice())?,
        })
    }
}

impl Copied for PortName {
    fn copied(&self, alloc: Global) -> Result<PortName, NoMemory> {
        Ok(PortName {
            instance: self.instance.copied(alloc)?,
            port: self.port.copied(alloc)?,
        })
    }
}

impl Copied for Wire {
    fn copied(&self, alloc: Global) -> Result<Wire, NoMemory> {
        Ok(Wire {
            from: self.from.copied(alloc)?,
            to: self.to.copied(alloc)?,
        })
    }
}
