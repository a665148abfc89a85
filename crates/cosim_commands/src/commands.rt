//! The commands, one for each module. A command that makes one piece has a `make`, and any other a `serve`.

pub(crate) mod bench;
pub(crate) mod check;
pub(crate) mod flatten;
pub(crate) mod generate;
pub(crate) mod nodes;
pub(crate) mod print;
pub(crate) mod replay;
pub(crate) mod resume;
pub(crate) mod run;
pub(crate) mod save;
pub(crate) mod stimulus;
pub(crate) mod upgrade;
pub(crate) mod verify;
