//! Laws of the definitions.
ghost use Rattle.project_loader.specs.Laws.{OneFirstFault, NoFaultWhereHeld, OneHeldProject, HeldOrFault};

/// A project has one first fault at most, which is said of one file.
pub fn one_first_fault()
    ensures { OneFirstFault }
{}

/// A project that is held has no first fault.
pub fn no_fault_where_held()
    ensures { NoFaultWhereHeld }
{}

/// A folder holds one project at most under a name.
pub fn one_held_project()
    ensures { OneHeldProject }
{}

/// No folder has neither a project nor a first fault under a name.
pub fn held_or_fault()
    ensures { HeldOrFault }
{}
