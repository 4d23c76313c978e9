//! The names of openings.

use oe_findings::Sky;
use std::marker::Brand;
use tree_versions::Naming;

/// The name of one opening of a clerk: also the state of the desk at it. Everything that comes from one opening has its name in its type.
pub trait Opening: Naming<Sky> {
    ghost use Rattle.desk_machine.specs.States.{State};

    ghost opening: { State };
}

impl Opening for Brand {
    ghost use Rattle.desk_machine.specs.States.{empty};

    ghost opening = { empty };
}
