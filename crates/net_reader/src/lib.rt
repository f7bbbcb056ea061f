//! How written projects are read back.
#![tactic(auto)]

mod cases;
mod characters;
mod declarations;
mod expressions;
mod fail;
mod file_lines;
mod file_names;
mod file_reading;
mod front;
mod heads;
mod items;
mod jumps;
mod laws;
mod lines;
mod loops;
mod margins;
mod members;
mod module_file;
mod pieces;
mod procedures;
mod project_files;
mod properties;
mod redims;
mod response_file;
mod signatures;
mod states;
mod step;
mod structures;
mod taken;
mod texts;
mod words;

pub use fail::NetReadFail;
pub use laws::{
    faults_are_first, faulty_files_stand_for_none, files_stand_for_one, lines_are_read,
    module_faults_are_first, modules_are_read, one_first_fault, projects_are_read,
    read_files_stand, read_modules_stand,
};
pub use lines::read_line;
pub use project_files::{can_be_counted, read_net};
