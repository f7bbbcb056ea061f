//! Laws of the text that stands for a project.
ghost use Rattle.net_tree.specs.Text.{HasOneList};

/// A law: a project has one list of files.
pub fn one_list_of_files()
    ensures { HasOneList }
{}
