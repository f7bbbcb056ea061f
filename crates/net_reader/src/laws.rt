//! That what was written is read back, and that what is read was written.
ghost use Rattle.std.specs.Prelude.{◌≡◌, true};
ghost use Rattle.net_tree.specs.Text.{StandForOne};
ghost use Rattle.net_reader.specs.Fits.{can_be_held};
ghost use Rattle.net_reader.specs.Laws.{FaultsAreFirst, FaultyFilesStandForNone, LinesAreRead, ModuleFaultsAreFirst, ModulesAreRead, OneFirstFault, ProjectsAreRead, ReadFilesStand, ReadModulesStand};

/// A law: a line of a procedure is read back.
pub fn lines_are_read()
    ensures { LinesAreRead }
{}

/// A law: a module is read back from its file, with the comment at the head.
pub fn modules_are_read()
    ensures { ModulesAreRead }
{}

/// A law: a project is read back from its files.
pub fn projects_are_read()
    ensures { ProjectsAreRead }
{}

/// A law: files stand for at most one project, among projects that a tree of the code can hold.
pub fn files_stand_for_one()
    ensures { StandForOne (λ N. can_be_held N ≡ true) }
{}

/// A law: a module that is read is one that its file stands for.
pub fn read_modules_stand()
    ensures { ReadModulesStand }
{}

/// A law: where no module is read, the line is the first at which the file begins none.
pub fn module_faults_are_first()
    ensures { ModuleFaultsAreFirst }
{}

/// A law: a project that is read is one that its files stand for.
pub fn read_files_stand()
    ensures { ReadFilesStand }
{}

/// A law: where no project is read, the place is that of the first fault.
pub fn faults_are_first()
    ensures { FaultsAreFirst }
{}

/// A law: files have one first fault at most.
pub fn one_first_fault()
    ensures { OneFirstFault }
{}

/// A law: files with a first fault stand for no project that can be read back.
pub fn faulty_files_stand_for_none()
    ensures { FaultyFilesStandForNone }
{}
